// The program `replay`: the box asked for, and a record as text.
ghost use Rattle.std.specs.Prelude.{◌≡◌, ◌+◌, ◌≤◌, length};
ghost use Rattle.digits.specs.Room.{over};
ghost use Rattle.raft.specs.Lent.{entries_of};
ghost use Rattle.record.specs.Calls.{state_of};
ghost use Rattle.printing.specs.Looking.{asked_box, numbered, first_shown, log_shown, shown};
ghost use Rattle.printing.specs.Putting.{Puts, shown_most, Listable, Showable};

use crate::putting::put_decimal;
use frames::Fields;
use record::Record;

// The digit of the last box.
const LAST: u8 = b'0' + Fields::BOXES;

// "a first line with one digit, the box asked for", from 1 to 7.
#[tactic(auto, unfolding(crate::specs::Looking::asked_box, crate::specs::Looking::asks))]
pub fn asked(line: &[u8]) -> Option<u8>
    ensures { result ≡ asked_box line.now }
{
    match line {
        [digit @ b'1'..=LAST, 10] => Some(digit - b'0'),
        _ => None,
    }
}

// A number and the character behind it; answers the place behind both.
fn put_number(room: &mut [u8], at: usize, n: u64, behind: u8) -> usize
    requires { at + 21 ≤ length room.old }
    ensures puts { Puts room.old at (numbered n behind) result room.new }
    ensures upper_bound { result ≤ at + 21 }
{
    let end = put_decimal(room, at, n);
    room[end] = behind;
    end + 1
}

// The first line; answers its bytes.
fn put_first(room: &mut [u8], bytes: u64, term: u32, vote: u8, last: u16) -> usize
    requires { 84 ≤ length room.old }
    ensures puts { Puts room.old 0 (first_shown bytes term vote last) result room.new }
    ensures upper_bound { result ≤ 84 }
{
    let one = put_number(room, 0, bytes, b' ');
    let two = put_number(room, one, term as u64, b' ');
    let three = put_number(room, two, vote as u64, b' ');
    put_number(room, three, last as u64, 10)
}

// So many entries of the lent log, each on a line of its own. (Terms and orders are lent apart, as C and the programs have them.)
fn put_log(room: &mut [u8], at: usize, terms: &[u32], orders: &[u64], last: usize)
    requires { Listable terms.now orders.now last room.old at }
    ensures { room.new ≡ over room.old at
        (log_shown (entries_of terms.now orders.now 0 last)) }
{
    for i in 0..last {
        frame_writer::put_entry(room, at + 25 * i, terms[i], orders[i]);
        room[at + 25 * i + 24] = 10;
    }
}

// A record as text, at the room's start; answers its bytes. An inside call: the room holds any record.
pub fn show(n: Record, bytes: u64, terms: &[u32], orders: &[u64], room: &mut [u8]) -> usize
    requires { Showable n terms.now orders.now room.old }
    ensures puts { Puts room.old 0 (shown bytes (state_of n terms.now orders.now)) result room.new }
    ensures upper_bound { result ≤ shown_most }
{
    let last = n.last;
    let first = put_first(room, bytes, n.term, n.vote, last);
    put_log(room, first, terms, orders, last as usize);
    first + 25 * last as usize
}
