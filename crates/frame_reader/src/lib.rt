// Reading: any bytes at all, to the fields of the message or the refusal `NotAFrame`.
//
// First the form (one line of digits, version, kind, length), then each field from its place, then the rules.
#![tactic(auto)]

ghost use Rattle.std.specs.Prelude.{◌≡◌, true, ◌+◌, ◌*◌, ◌≤◌, ◌<◌, get_or};
ghost use Rattle.digits.specs.Digits.{field, run};
ghost use Rattle.frames.specs.Fields.{no_entry, places, fields_of, answer};
ghost use Rattle.frames.specs.Reading as reading;
ghost use Rattle.frame_reader.specs.Known.{LineOf, FixedOf, KindOf, EntriesIn, EntryIn, is_long};

use frames::{Entry, Fields, Refusal, obeys, size, text_size};

// Digits, ended by one line feed, and nothing after it. (An inside call: lines of text and of the journal are looked at by it too.)
#[tactic(auto, using(crate::proofs::Steps::steps))]
pub fn is_line(s: &[u8]) -> bool
    ensures { result ≡ reading.is_line s.now }
{
    match s.split_last() {
        Some((last, rest)) => digits::all_digits(rest) & (*last == 10),
        None => false,
    }
}

// A line that has version 01 and one of the four kinds. (In these three the kind is the byte that stands there, so any number.)
#[tactic(auto, unfolding(frames::specs::Reading::is_headed, frames::specs::Reading::version))]
fn is_headed(s: &[u8], kind: u8) -> bool
    requires { LineOf s.now kind }
    ensures { result ≡ reading.is_headed s.now }
{
    (digits::get::<u8>(s, 0) == 1)
        & (Fields::VOTE_REQUEST <= kind)
        & (kind <= Fields::APPEND_ANSWER)
}

// Only an append has a count, behind its commit.
#[tactic(auto, unfolding(frames::specs::Reading::count, frames::specs::Reading::size))]
fn count(s: &[u8], kind: u8) -> u8
    requires { FixedOf s.now kind }
    ensures { result ≡ reading.count s.now }
{
    match kind {
        Fields::APPEND => digits::get(s, 32),
        _ => 0,
    }
}

// As long as its kind and count tell, with at most four entries.
#[tactic(auto, using(crate::proofs::Steps::steps))]
fn is_long(s: &[u8], kind: u8) -> bool
    requires { KindOf s.now kind }
    ensures { result ≡ is_long s.now }
{
    if s.len() < text_size(size(kind, 0)) {
        return false;
    }
    let n = count(s, kind);
    (s.len() == text_size(size(kind, n))) & (n as usize <= Fields::ENTRIES)
}

// The form of a frame, with at most four entries.
#[tactic(auto, using(crate::proofs::Steps::steps), unfolding(frames::specs::Reading::readable, frames::specs::Reading::shaped, frames::specs::Reading::is_headed, frames::specs::Reading::kind))]
fn is_readable(s: &[u8]) -> bool
    ensures { result ≡ reading.readable s.now }
{
    if s.len() < 19 || !is_line(s) {
        return false;
    }
    let kind: u8 = digits::get(s, 2);
    is_headed(s, kind) && is_long(s, kind)
}

// One function for each kind: its own fields, each from its place.

#[tactic(auto, unfolding(frames::specs::Fields::fields_of, frames::specs::Reading::vote_request_in))]
fn vote_request(s: &[u8]) -> Fields
    requires { 28 ≤ run s.now }
    ensures { result ≡ fields_of (reading.vote_request_in s.now) }
{
    Fields {
        kind: Fields::VOTE_REQUEST,
        from: digits::get(s, 4),
        to: digits::get(s, 6),
        term: digits::get(s, 8),
        index: digits::get(s, 16),
        prior: digits::get(s, 20),
        ..Fields::NONE
    }
}

#[tactic(auto, unfolding(frames::specs::Fields::fields_of, frames::specs::Reading::vote_answer_in))]
fn vote_answer(s: &[u8]) -> Fields
    requires { 18 ≤ run s.now }
    ensures { result ≡ fields_of (reading.vote_answer_in s.now) }
{
    Fields {
        kind: Fields::VOTE_ANSWER,
        from: digits::get(s, 4),
        to: digits::get(s, 6),
        term: digits::get(s, 8),
        reply: digits::get(s, 16),
        ..Fields::NONE
    }
}

#[tactic(auto, unfolding(frames::specs::Fields::fields_of, frames::specs::Reading::append_answer_in))]
fn append_answer(s: &[u8]) -> Fields
    requires { 22 ≤ run s.now }
    ensures { result ≡ fields_of (reading.append_answer_in s.now) }
{
    Fields {
        kind: Fields::APPEND_ANSWER,
        from: digits::get(s, 4),
        to: digits::get(s, 6),
        term: digits::get(s, 8),
        index: digits::get(s, 18),
        reply: digits::get(s, 16),
        ..Fields::NONE
    }
}

// The entry at a place of the four: what stands there, or none past the count.
#[tactic(auto, using(crate::proofs::Steps::steps), unfolding(frames::specs::Reading::entry_at))]
fn entry(s: &[u8], from: usize, at: usize, count: u8) -> Entry
    requires { EntryIn s.now from at count }
    ensures { result ≡ get_or (reading.entries_at s.now from count) at no_entry }
{
    if count as usize <= at {
        return Entry::NONE;
    }
    let place = from + 24 * at;
    Entry {
        term: digits::get(s, place),
        order: digits::get(s, place + 8),
    }
}

// So many entries from a place of the text on. (An inside call: the journal's lines are read by it too.)
pub fn entries(s: &[u8], from: usize, count: u8) -> [Entry; Fields::ENTRIES]
    requires { EntriesIn s.now from count }
    ensures { result ≡ places (reading.entries_at s.now from count) }
{
    [
        entry(s, from, 0, count),
        entry(s, from, 1, count),
        entry(s, from, 2, count),
        entry(s, from, 3, count),
    ]
}

// The fields of an append, and as many entries as it counts.
#[tactic(auto, using(crate::proofs::Steps::steps), unfolding(frames::specs::Fields::fields_of, frames::specs::Reading::append_in))]
fn append(s: &[u8]) -> Fields
    requires { 34 + 24 * field s.now 32 1 ≤ run s.now }
    ensures { result ≡ fields_of (reading.append_in s.now) }
{
    let count: u8 = digits::get(s, 32);
    let entries = entries(s, 34, count);
    Fields {
        kind: Fields::APPEND,
        from: digits::get(s, 4),
        to: digits::get(s, 6),
        term: digits::get(s, 8),
        index: digits::get(s, 16),
        prior: digits::get(s, 20),
        commit: digits::get(s, 28),
        count,
        entries,
        ..Fields::NONE
    }
}

// The fields of the kind. (Each arm returns by itself: where they meet in one value it is taken apart and put together again, 3 ns more.)
#[tactic(auto, using(crate::proofs::Steps::steps), unfolding(frames::specs::Reading::message_in, frames::specs::Reading::kind, frames::specs::Message::by_kind))]
fn fields(s: &[u8]) -> Fields
    requires { reading.readable s.now ≡ true }
    ensures { result ≡ fields_of (reading.message_in s.now) }
{
    match digits::get::<u8>(s, 2) {
        Fields::VOTE_REQUEST => return vote_request(s),
        Fields::VOTE_ANSWER => return vote_answer(s),
        Fields::APPEND => return append(s),
        _ => return append_answer(s),
    }
}

// The message that the bytes are, or `NotAFrame` exactly when they are not one frame.
#[tactic(auto, using(crate::proofs::Steps::steps), unfolding(frames::specs::Fields::answer))]
pub fn read(s: &[u8]) -> Result<Fields, Refusal>
    ensures { result ≡ answer (reading.reading s.now) }
{
    if !is_readable(s) {
        return Err(Refusal::NotAFrame);
    }
    let fields = fields(s);
    if !obeys(fields) {
        return Err(Refusal::NotAFrame);
    }
    Ok(fields)
}
