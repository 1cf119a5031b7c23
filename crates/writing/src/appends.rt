// "Append to j", and an append to each other member in rising box number. The log is lent as C lends it: its terms and its orders, apart.
ghost use Rattle.std.specs.Prelude.{◌≡◌, ◌≤◌};
ghost use Rattle.digits.specs.Room.{over};
ghost use Rattle.frames.specs.Limits.{IsBox, boxes, entry_limit, longest_message};
ghost use Rattle.frames.specs.Message.{append, text};
ghost use Rattle.raft.specs.Sends.{append_to, texts, appends};
ghost use Rattle.raft.specs.Lent.{entries_of};
ghost use Rattle.record.specs.Calls.{state_of};
ghost use Rattle.record.specs.Sizes.{shares, previous, entry_count, append_size, Loggable, AppendFits, AppendsFit};

use crate::journal_lines::put_logged;
use crate::others::{put_to_others, shares};
use frames::Fields;
use record::Record;
use rules::term_at;

// "Previous index = next - 1"
fn previous(n: Record, i: u8) -> u16
    requires { IsBox i }
    ensures { result ≡ previous n i }
{
    let lead = n.lead;
    lead.next[(i - 1) as usize].saturating_sub(1)
}

// "up to 4 entries from next on"
fn entry_count(last: u16, previous: u16) -> u8
    ensures value { result ≡ entry_count last previous }
    ensures upper_bound { result ≤ entry_limit }
{
    last.saturating_sub(previous).min(Fields::ENTRIES as u16) as u8
}

// The bytes of the append to box i.
pub fn append_size(n: Record, i: u8) -> usize
    requires { IsBox i }
    ensures value { result ≡ append_size n i }
    ensures upper_bound { result ≤ longest_message }
{
    35 + 24 * entry_count(n.last, previous(n, i)) as usize
}

// The bytes of all appends.
pub fn appends_size(n: Record) -> usize
    ensures { result ≡ shares n (append_size n) boxes }
{
    shares(n, |i| append_size(n, i))
}

// An append whose entries stand in the lent log behind the previous index. Its fields come one by one: a struct of them would be written in small pieces and
// read back in large ones, which is slower (docs/BENCH.md).
fn put_append_from(
    room: &mut [u8],
    from: u8,
    to: u8,
    term: u32,
    index: u16,
    prior: u32,
    commit: u16,
    count: u8,
    terms: &[u32],
    orders: &[u64],
)
    requires { Loggable terms.now orders.now index count 35 room.old }
    ensures { room.new ≡ over room.old 0
        (text (append from to term index prior commit (entries_of terms.now orders.now index count))) }
{
    frame_writer::put_append_start(room, from, to, term, index, prior, commit, count);
    put_logged(room, 34, terms, orders, index as usize, count as usize);
    frame_writer::put_end(room, 34 + 24 * count as usize);
}

// "Append to j. Previous index = next - 1 with its term (0, 0 at the start), up to 4 entries from next on, the leader's commit."
pub fn put_append(room: &mut [u8], n: Record, terms: &[u32], orders: &[u64], i: u8)
    requires { AppendFits n i terms.now orders.now room.old }
    ensures { room.new ≡ over room.old 0
        (text (append_to (state_of n terms.now orders.now) i)) }
{
    let index = previous(n, i);
    put_append_from(
        room,
        n.me,
        i,
        n.term,
        index,
        term_at(terms, index),
        n.commit,
        entry_count(n.last, index),
        terms,
        orders,
    );
}

// An append to each other member.
pub fn put_appends(room: &mut [u8], n: Record, terms: &[u32], orders: &[u64])
    requires { AppendsFit n terms.now orders.now room.old }
    ensures { room.new ≡ over room.old 0
        (texts (appends (state_of n terms.now orders.now))) }
{
    put_to_others(room, n, |part, i| {
        put_append(part, n, terms, orders, i);
        append_size(n, i)
    });
}
