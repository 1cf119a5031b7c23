// An order is 8 bytes as they stand; box_order and the lent log have it as a number, the first byte highest. Here is the way from the one to the
// other and back, the same on every chip.
ghost use Rattle.std.specs.Prelude.{◌≡◌};
ghost use Rattle.abi.specs.Orders.{order_of, bytes_of};

// The order that 8 bytes are.
#[unsafe(no_mangle)]
pub extern "C" fn order_from_bytes(bytes: &[u8; 8]) -> u64
    ensures { result ≡ order_of bytes.now }
{
    u64::from_be_bytes(*bytes)
}

// The 8 bytes that an order is.
#[unsafe(no_mangle)]
pub extern "C" fn order_to_bytes(order: u64, bytes: &mut [u8; 8])
    ensures { bytes.new ≡ bytes_of order }
{
    *bytes = order.to_be_bytes();
}
