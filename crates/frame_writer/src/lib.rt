// Writing: any fields at all, into room that the caller lends. A refusal leaves the room as it was.
// (The room is lent whole, with a place in it, as in `digits`: what is promised is all of it.)
#![tactic(auto)]

ghost use Rattle.std.specs.Prelude.{◌≡◌, [], ◌∷◌, ◌+◌, ◌*◌, ◌≤◌, ◌<◌, length};
ghost use Rattle.digits.specs.Room.{over};
ghost use Rattle.frames.specs.Limits.{entry_limit};
ghost use Rattle.frames.specs.Message.{vote_request, vote_answer, append, append_answer, number, start, entry_fields, spell, text};
ghost use Rattle.frames.specs.Fields.{listed, message_of};
ghost use Rattle.frames.specs.Writing.{Wrote, written};
ghost use Rattle.frame_writer.specs.Writable.{Writable};

use frames::{Entry, Fields, Refusal, is_frame, size, text_size};

// "Every frame starts: 01, kind, from, to, term (4)." (The kind is its number, as in `Fields`.)
fn put_start(room: &mut [u8], kind: u8, from: u8, to: u8, term: u32)
    requires { 16 ≤ length room.old }
    ensures { room.new ≡ over room.old 0 (spell (start kind from to term [])) }
{
    digits::put(room, 0, 1u8);
    digits::put(room, 2, kind);
    digits::put(room, 4, from);
    digits::put(room, 6, to);
    digits::put(room, 8, term);
}

// The line feed that ends a frame or a journal line. (An inside call.)
#[tactic(auto, using(crate::proofs::Steps::steps))]
pub fn put_end(room: &mut [u8], at: usize)
    requires { at < length room.old }
    ensures { room.new ≡ over room.old at (10 ∷ []) }
{
    room[at] = 10;
}

// One function for each kind, on its fields alone: whoever sends from a record has no `Fields`, with its four places for entries, and would
// make one to send none. They are inside calls: they ask for the room, and the fields may say anything.

// Kind 1: "last index 2, last term 4".
pub fn put_vote_request(room: &mut [u8], from: u8, to: u8, term: u32, index: u16, prior: u32)
    requires { 29 ≤ length room.old }
    ensures { room.new ≡ over room.old 0 (text (vote_request from to term index prior)) }
{
    put_start(room, Fields::VOTE_REQUEST, from, to, term);
    digits::put(room, 16, index);
    digits::put(room, 20, prior);
    put_end(room, 28);
}

// Kind 2: "yes 1".
pub fn put_vote_answer(room: &mut [u8], from: u8, to: u8, term: u32, reply: u8)
    requires { 19 ≤ length room.old }
    ensures { room.new ≡ over room.old 0 (text (vote_answer from to term reply)) }
{
    put_start(room, Fields::VOTE_ANSWER, from, to, term);
    digits::put(room, 16, reply);
    put_end(room, 18);
}

// Kind 4: "yes 1, index 2".
pub fn put_append_answer(room: &mut [u8], from: u8, to: u8, term: u32, reply: u8, index: u16)
    requires { 23 ≤ length room.old }
    ensures { room.new ≡ over room.old 0 (text (append_answer from to term reply index)) }
{
    put_start(room, Fields::APPEND_ANSWER, from, to, term);
    digits::put(room, 16, reply);
    digits::put(room, 18, index);
    put_end(room, 22);
}

// "entries of 12": the term and the order. (An inside call: who sends a lent log's entries writes each from where it lies.)
pub fn put_entry(room: &mut [u8], at: usize, term: u32, order: u64)
    requires { at + 24 ≤ length room.old }
    ensures { room.new ≡ over room.old at (spell (entry_fields (record { term = term; order = order } ∷ []))) }
{
    digits::put(room, at, term);
    digits::put(room, at + 8, order);
}

// Entries, one behind the other, from a place on. (An inside call.)
#[tactic(auto, using(crate::proofs::Steps::steps), unfolding(frames::specs::Message::entry_fields))]
pub fn put_entries(room: &mut [u8], at: usize, entries: &[Entry])
    requires { at + 24 * length entries.now ≤ length room.old }
    ensures { room.new ≡ over room.old at (spell (entry_fields entries.now)) }
{
    for (i, e) in entries.iter().enumerate() {
        put_entry(room, at + 24 * i, e.term, e.order);
    }
}

// Kind 3 up to its entries: "previous index 2, previous term 4, commit 2, count 1". (An inside call, as put_entry.)
pub fn put_append_start(
    room: &mut [u8],
    from: u8,
    to: u8,
    term: u32,
    index: u16,
    prior: u32,
    commit: u16,
    count: u8,
)
    requires { 34 ≤ length room.old }
    ensures { room.new ≡ over room.old 0 (spell (start 3 from to term (number 2 index ∷ number 4 prior ∷ number 2 commit ∷ number 1 count ∷ []))) }
{
    put_start(room, Fields::APPEND, from, to, term);
    digits::put(room, 16, index);
    digits::put(room, 20, prior);
    digits::put(room, 28, commit);
    digits::put(room, 32, count);
}

// Kind 3 whole, from the entries of the struct.
fn put_append(room: &mut [u8], f: Fields)
    requires few { f.count ≤ entry_limit }
    requires room { 35 + 24 * f.count ≤ length room.old }
    ensures { room.new ≡ over room.old 0 (text (append f.from f.to f.term f.index f.prior f.commit (listed f.entries 0 f.count))) }
{
    let entries = &f.entries[..f.count as usize];
    put_append_start(
        room, f.from, f.to, f.term, f.index, f.prior, f.commit, f.count,
    );
    put_entries(room, 34, entries);
    put_end(room, 34 + 24 * f.count as usize);
}

// The frame of the fields' kind.
#[tactic(auto, using(crate::proofs::Steps::steps), unfolding(frames::specs::Message::by_kind, frames::specs::Reading::size))]
fn put_frame(room: &mut [u8], f: Fields)
    requires { Writable f room.old }
    ensures { room.new ≡ over room.old 0 (text (message_of f)) }
{
    match f.kind {
        Fields::VOTE_REQUEST => put_vote_request(room, f.from, f.to, f.term, f.index, f.prior),
        Fields::VOTE_ANSWER => put_vote_answer(room, f.from, f.to, f.term, f.reply),
        Fields::APPEND => put_append(room, f),
        _ => put_append_answer(room, f.from, f.to, f.term, f.reply, f.index),
    }
}

// `NotAFrame` exactly when the fields are not one frame, `NoRoom` exactly when the room is too short for it;
// otherwise the frame's bytes at the room's start, and how many.
#[tactic(auto, using(crate::proofs::Steps::steps))]
pub fn write(room: &mut [u8], f: Fields) -> Result<usize, Refusal>
    ensures { ◌≡◌ {A = Wrote} (record { answer = result; room = room.new }) (written f room.old) }
{
    if !is_frame(f) {
        return Err(Refusal::NotAFrame);
    }
    let bytes = text_size(size(f.kind, f.count));
    if room.len() < bytes {
        return Err(Refusal::NoRoom);
    }
    put_frame(room, f);
    Ok(bytes)
}
