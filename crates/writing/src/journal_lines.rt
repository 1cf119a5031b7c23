// The journal's head and lines. The log is lent as C lends it: its terms and its orders, apart.
ghost use Rattle.std.specs.Prelude.{◌≡◌, [], ◌∷◌, ◌-◌, ◌≤◌, length};
ghost use Rattle.digits.specs.Room.{over};
ghost use Rattle.frames.specs.Message.{number, entry_fields, spell};
ghost use Rattle.raft.specs.Journal.{head, line_text};
ghost use Rattle.raft.specs.Lent.{entries_of};
ghost use Rattle.record.specs.Sizes.{Loggable, LineFits};

use record::Record;

// "head 01, 11, box, mask"
pub fn put_head(room: &mut [u8], me: u8, mask: u8)
    requires { 9 ≤ length room.old }
    ensures { room.new ≡ over room.old 0 (head me mask) }
{
    digits::put(room, 0, 1u8);
    digits::put(room, 2, Record::HEAD);
    digits::put(room, 4, me);
    digits::put(room, 6, mask);
    frame_writer::put_end(room, 8);
}

// "01, 10, box, term 4, vote 1, kept 2, count 1"
fn put_line_start(room: &mut [u8], next: Record, kept: u16, count: u8)
    requires { 22 ≤ length room.old }
    ensures { room.new ≡ over room.old 0
        (spell (number 1 1 ∷ number 1 16 ∷ number 1 next.me ∷ number 4 next.term ∷ number 1 next.vote ∷ number 2 kept ∷ number 1 count ∷ [])) }
{
    digits::put(room, 0, 1u8);
    digits::put(room, 2, Record::LINE);
    digits::put(room, 4, next.me);
    digits::put(room, 6, next.term);
    digits::put(room, 14, next.vote);
    digits::put(room, 16, kept);
    digits::put(room, 20, count);
}

// So many entries of the lent log from a place of it on, one behind the other. Each is written from where it lies: an array of them would be
// filled and then copied, and such a copy waits until all that was written before it is in memory. (By index: a zip of two parts of the arrays, numbered, is no plainer.)
pub fn put_logged(
    room: &mut [u8],
    at: usize,
    terms: &[u32],
    orders: &[u64],
    from: usize,
    count: usize,
)
    requires { Loggable terms.now orders.now from count at room.old }
    ensures { room.new ≡ over room.old at
        (spell (entry_fields (entries_of terms.now orders.now from count))) }
{
    for i in 0..count {
        frame_writer::put_entry(room, at + 24 * i, terms[from + i], orders[from + i]);
    }
}

// A step's line: the next record's term and vote, and the entries of its log, which is lent, behind those that were kept.
pub fn put_line(room: &mut [u8], next: Record, kept: u16, terms: &[u32], orders: &[u64])
    requires { LineFits next kept terms.now orders.now room.old }
    ensures { room.new ≡ over room.old 0
        (line_text (record {
          box = next.me;
          term = next.term;
          vote = next.vote;
          kept = kept;
          entries = entries_of terms.now orders.now kept (next.last - kept);
        })) }
{
    let count = next.last - kept;
    put_line_start(room, next, kept, count as u8);
    put_logged(room, 22, terms, orders, kept as usize, count as usize);
    frame_writer::put_end(room, 22 + 24 * count as usize);
}
