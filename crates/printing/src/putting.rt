// What is printed: a text put at a place, a number in decimal, the line of a refusal. The room is lent whole, with a place in it: `Puts` promises all of it.
ghost use Rattle.std.specs.Prelude.{◌≡◌, ◌+◌, ◌≤◌, length};
ghost use Rattle.digits.specs.Room.{over};
ghost use Rattle.printing.specs.Text.{decimal, refusal_line};
ghost use Rattle.printing.specs.Putting.{Puts};

use itoa::Buffer;

// Puts a text at a place of the room.
pub fn put(room: &mut [u8], at: usize, text: &[u8])
    requires { at + length text.now ≤ length room.old }
    ensures { room.new ≡ over room.old at text.now }
{
    room[at..at + text.len()].copy_from_slice(text);
}

// Puts a number in decimal at a place; answers the place behind it. (`write!` promises no text to a slice; `itoa` promises its own, which lies on the stack.)
pub fn put_decimal(room: &mut [u8], at: usize, n: u64) -> usize
    requires { at + 20 ≤ length room.old }
    ensures puts { Puts room.old at (decimal n) result room.new }
    ensures upper_bound { result ≤ at + 20 }
{
    let mut buffer = Buffer::new();
    let text = buffer.format(n).as_bytes();
    put(room, at, text);
    at + text.len()
}

// Puts the line of a refusal at the room's start, of any number (a refusal's type would ask more); answers its bytes.
pub fn put_refusal(room: &mut [u8], number: u8) -> usize
    requires { 22 ≤ length room.old }
    ensures { Puts room.old 0 (refusal_line number) result room.new }
{
    room[0] = b'n';
    let end = put_decimal(room, 1, number as u64);
    room[end] = 10;
    end + 1
}
