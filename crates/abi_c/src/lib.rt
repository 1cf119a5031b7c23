// The C functions: `abi`'s own under C's calling convention, each with `abi`'s clauses. (A library is no static library, so they stand in a crate of their own.)
#![tactic(auto)]

ghost use Rattle.std.specs.Prelude.{◌≡◌};
ghost use Rattle.raft.specs.Event.{times_out, takes_order, is_prompted, receives};
ghost use Rattle.abi.specs.Boxes.{Steps, Begins, Hands};
ghost use Rattle.abi.specs.Frames.{Reads, Writes};
ghost use Rattle.abi.specs.Journals.{FlatOpens, FlatReplays};
ghost use Rattle.abi.specs.Orders.{order_of, bytes_of};

use record::Record;

// frame_reader::read: 0 and the 17 numbers, or 1 and the numbers as they were.
#[unsafe(no_mangle)]
pub extern "C" fn frame_read(text: &[u8], numbers: &mut [u64; 17]) -> u8
    ensures { Reads text.now numbers.old result numbers.new }
{
    abi::frame_read(text, numbers)
}

// frame_writer::write of the fields that the numbers are: 0, 1 or 5.
#[unsafe(no_mangle)]
pub extern "C" fn frame_write(numbers: &[u64; 17], room: &mut [u8]) -> u8
    ensures { Writes numbers.now room.old result room.new }
{
    abi::frame_write(numbers, room)
}

// Each event: 12 where a number does not fit its field; otherwise the box's answer, stored. First the timeout.
#[unsafe(no_mangle)]
pub extern "C" fn box_timeout(
    n: &mut [u64; 22],
    terms: &mut [u32; Record::LOG],
    orders: &mut [u64; Record::LOG],
    journal: &mut [u8],
    room: &mut [u8],
    sizes: &mut [u64; 2],
) -> u8
    ensures { Steps times_out n.old terms.old orders.old journal.old room.old sizes.old result
        n.new terms.new orders.new journal.new room.new sizes.new }
{
    abi::box_timeout(n, terms, orders, journal, room, sizes)
}

// A prompt.
#[unsafe(no_mangle)]
pub extern "C" fn box_prompt(
    n: &mut [u64; 22],
    terms: &[u32; Record::LOG],
    orders: &[u64; Record::LOG],
    journal: &mut [u8],
    room: &mut [u8],
    sizes: &mut [u64; 2],
) -> u8
    ensures { Steps is_prompted n.old terms.now orders.now journal.old room.old sizes.old result
        n.new terms.now orders.now journal.new room.new sizes.new }
{
    abi::box_prompt(n, terms, orders, journal, room, sizes)
}

// An order.
#[unsafe(no_mangle)]
pub extern "C" fn box_order(
    order: u64,
    n: &mut [u64; 22],
    terms: &mut [u32; Record::LOG],
    orders: &mut [u64; Record::LOG],
    journal: &mut [u8],
    room: &mut [u8],
    sizes: &mut [u64; 2],
) -> u8
    ensures { Steps (takes_order order) n.old terms.old orders.old journal.old room.old sizes.old result
        n.new terms.new orders.new journal.new room.new sizes.new }
{
    abi::box_order(order, n, terms, orders, journal, room, sizes)
}

// Bytes that came in.
#[unsafe(no_mangle)]
pub extern "C" fn box_receive(
    text: &[u8],
    n: &mut [u64; 22],
    terms: &mut [u32; Record::LOG],
    orders: &mut [u64; Record::LOG],
    journal: &mut [u8],
    room: &mut [u8],
    sizes: &mut [u64; 2],
) -> u8
    ensures { Steps (receives text.now) n.old terms.old orders.old journal.old room.old sizes.old result
        n.new terms.new orders.new journal.new room.new sizes.new }
{
    abi::box_receive(text, n, terms, orders, journal, room, sizes)
}

// A start: 01's number and 256 times the bytes of the head.
#[unsafe(no_mangle)]
pub extern "C" fn box_start(me: u8, mask: u8, n: &mut [u64; 22], room: &mut [u8]) -> u64
    ensures { Begins me mask n.old room.old result n.new room.new }
{
    abi::box_start(me, mask, n, room)
}

// How many entries are handed out, stored where the answer is 0.
#[unsafe(no_mangle)]
pub extern "C" fn box_handed_out(
    n: &[u64; 22],
    terms: &[u32; Record::LOG],
    orders: &[u64; Record::LOG],
    count: &mut u64,
) -> u8
    ensures { Hands n.now terms.now orders.now count.old result count.new }
{
    abi::box_handed_out(n, terms, orders, count)
}

// Opens a whole journal.
#[unsafe(no_mangle)]
pub extern "C" fn journal_open(
    me: u8,
    text: &[u8],
    n: &mut [u64; 22],
    terms: &mut [u32; Record::LOG],
    orders: &mut [u64; Record::LOG],
    sizes: &mut [u64; 2],
) -> u8
    ensures { FlatOpens me text.now n.old terms.old orders.old sizes.old result
        n.new terms.new orders.new sizes.new }
{
    abi::journal_open(me, text, n, terms, orders, sizes)
}

// Replays one whole line, with its line feed, over the record that the numbers are; 12 where one does not fit its field.
#[unsafe(no_mangle)]
pub extern "C" fn journal_replay(
    text: &[u8],
    n: &mut [u64; 22],
    terms: &mut [u32; Record::LOG],
    orders: &mut [u64; Record::LOG],
) -> u8
    ensures { FlatReplays text.now n.old terms.old orders.old result
        n.new terms.new orders.new }
{
    abi::journal_replay(text, n, terms, orders)
}

// The order that 8 bytes are.
#[unsafe(no_mangle)]
pub extern "C" fn order_from_bytes(bytes: &[u8; 8]) -> u64
    ensures { result ≡ order_of bytes.now }
{
    abi::order_from_bytes(bytes)
}

// The 8 bytes that an order is.
#[unsafe(no_mangle)]
pub extern "C" fn order_to_bytes(order: u64, bytes: &mut [u8; 8])
    ensures { bytes.new ≡ bytes_of order }
{
    abi::order_to_bytes(order, bytes);
}
