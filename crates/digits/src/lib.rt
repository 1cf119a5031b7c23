// Digits and fields: 01's lower-case hexadecimal, two digits a byte, fields of 1, 2, 4 and 8 bytes, big-endian.
//
// A field of two, four or eight bytes is two fields of half its width, the high half first. So each width is two calls
// of the one below it, and all of them rest on one law over the width (specs/Laws.antt).
//
// A table is copied to the stack where it is used, so the writers make it once for a field and lend it to the halves.
//
// A room is lent whole, with a place in it: what is promised is all of it (`over`), and a part would say nothing of the rest.
#![tactic(auto)]

mod tables;

ghost use Rattle.std.specs.Prelude.{◌≡◌, true, ℕ, ◌+◌, ◌*◌, ◌≤◌, length};
ghost use Rattle.digits.specs.Digits.{is_digit, all_digits, worth, field, spelt, run};
ghost use Rattle.digits.specs.Room.{over, Lent};

use tables::DIGITS;
pub use tables::LENGTHS;

// One of the sixteen characters, and nothing else, is a digit.
fn is_digit(c: u8) -> bool
    ensures { result ≡ is_digit c }
{
    ((48 <= c) & (c <= 57)) | ((97 <= c) & (c <= 102))
}

// Nothing but digits. It looks at every character, with no way out early: so the compiler makes it some 16 at a time.
#[tactic(auto, using(crate::specs::Laws::all_digits_more), unfolding(crate::specs::Digits::all_digits))]
pub fn all_digits(s: &[u8]) -> bool
    ensures { result ≡ all_digits s.now }
{
    let mut ok = true;
    for c in s {
        ok = ok & is_digit(*c);
    }
    ok
}

// The number of a digit character, with no branch.
fn worth(c: u8) -> u8
    requires { is_digit c ≡ true }
    ensures { result ≡ worth c }
{
    c % 16 + c / 64 * 9
}

// A number of so many bytes that stands in a text as a field. A byte is two digits, and each wider number is two of half
// its width. (The halves come by division and remainder: `to_be_bytes` gives bytes, which would have to be made halves again.)
pub trait Field {
    ghost width: { ℕ };

    ghost value: { Self → ℕ };

    // The field that starts at a place among the digits that a text begins with.
    fn get(s: &[u8], at: usize) -> Self
        requires { at + 2 * width ≤ run s.now }
        ensures { value result ≡ field s.now at width };

    // Writes the digits, from the table lent, at a place of the room.
    fn spell(self, table: &[u8; 16], room: &mut [u8], at: usize)
        requires { Lent width table.now room.old at }
        ensures { room.new ≡ over room.old at (spelt width (value self)) };
}

impl Field for u8 {
    ghost width = { 1 };

    ghost value = { λ n. n };

    fn get(s: &[u8], at: usize) -> u8 {
        let high = worth(s[at]);
        let low = worth(s[at + 1]);
        high * 16 + low
    }

    fn spell(self, table: &[u8; 16], room: &mut [u8], at: usize) {
        room[at] = table[(self / 16) as usize];
        room[at + 1] = table[(self % 16) as usize];
    }
}

impl Field for u16 {
    ghost width = { 2 };

    ghost value = { λ n. n };

    fn get(s: &[u8], at: usize) -> u16 {
        let high = u8::get(s, at);
        let low = u8::get(s, at + 2);
        high as u16 * 256 + low as u16
    }

    fn spell(self, table: &[u8; 16], room: &mut [u8], at: usize) {
        ((self / 256) as u8).spell(table, room, at);
        ((self % 256) as u8).spell(table, room, at + 2);
    }
}

impl Field for u32 {
    ghost width = { 4 };

    ghost value = { λ n. n };

    fn get(s: &[u8], at: usize) -> u32 {
        let high = u16::get(s, at);
        let low = u16::get(s, at + 4);
        high as u32 * 65536 + low as u32
    }

    fn spell(self, table: &[u8; 16], room: &mut [u8], at: usize) {
        ((self / 65536) as u16).spell(table, room, at);
        ((self % 65536) as u16).spell(table, room, at + 4);
    }
}

impl Field for u64 {
    ghost width = { 8 };

    ghost value = { λ n. n };

    fn get(s: &[u8], at: usize) -> u64 {
        let high = u32::get(s, at);
        let low = u32::get(s, at + 8);
        high as u64 * 4294967296 + low as u64
    }

    fn spell(self, table: &[u8; 16], room: &mut [u8], at: usize) {
        ((self / 4294967296) as u32).spell(table, room, at);
        ((self % 4294967296) as u32).spell(table, room, at + 8);
    }
}

// Reads a field, of the width that the caller's type has.
pub fn get<F: Field>(s: &[u8], at: usize) -> F
    requires { at + 2 * F.width ≤ run s.now }
    ensures { F.value result ≡ field s.now at F.width }
{
    F::get(s, at)
}

// Writes a field at a place of the room.
pub fn put<F: Field>(room: &mut [u8], at: usize, n: F)
    requires { at + 2 * F.width ≤ length room.old }
    ensures { room.new ≡ over room.old at (spelt F.width (F.value n)) }
{
    let table = DIGITS;
    n.spell(&table, room, at);
}
