// The rules of the paragraph under 01's table of kinds, clause by clause in the order of specs/Rules.antt.
// Clauses are joined by `&`, which looks at each: no branch, and the contract is the definition's own text.
ghost use Rattle.std.specs.Prelude.{◌≡◌, ◌≤◌};
ghost use Rattle.frames.specs.Limits.{entry_limit};
ghost use Rattle.frames.specs.Message.{vote_request, vote_answer, append, append_answer};
ghost use Rattle.frames.specs.Rules.{is_box, is_index, is_reply, is_pair, is_start, follows, in_order, obeys};
ghost use Rattle.frames.specs.Fields.{listed, message_of, is_unused, entries_unused, fields_unused, one_frame};

use crate::{Entry, Fields};

// "Boxes 1 to 7" (An inside call: the record's rules ask it too.)
pub fn is_box(i: u8) -> bool
    ensures { result ≡ is_box i }
{
    (1 <= i) & (i <= Fields::BOXES)
}

// "indexes at most 256"
fn is_index(i: u16) -> bool
    ensures { result ≡ is_index i }
{
    i <= Fields::LOG
}

// "yes 0 or 1"
fn is_reply(y: u8) -> bool
    ensures { result ≡ is_reply y }
{
    y <= 1
}

// "an index is 0 exactly when its term is"
fn is_pair(index: u16, term: u32) -> bool
    ensures { result ≡ is_pair index term }
{
    ((index == 0) & (term == 0)) | ((1 <= index) & (1 <= term))
}

// "Boxes 1 to 7; term at least 1"
fn is_start(from: u8, to: u8, term: u32) -> bool
    ensures { result ≡ is_start from to term }
{
    is_box(from) & is_box(to) & (1 <= term)
}

// One step of the entry rule: a term, the previous one first, and the entry's term that follows it.
fn follows(last: u32, term: u32, next: u32) -> bool
    ensures { result ≡ follows last term next }
{
    (last <= term) & (1 <= next) & (last <= next)
}

// The entry rule: "previous term and the entry terms never fall, entry terms at least 1, none of them, previous term included, above term".
// (An inside call: the journal's lines have the same rule.)
#[tactic(auto, using(crate::specs::Laws::steps))]
pub fn in_order(entries: &[Entry], previous: u32, term: u32) -> bool
    ensures { result ≡ in_order previous term entries.now }
{
    let mut last = previous;
    for e in entries {
        if !follows(last, term, e.term) {
            return false;
        }
        last = e.term;
    }
    last <= term
}

// "Kind 1: last term below term."
fn is_vote_request(f: Fields) -> bool
    ensures { result ≡ obeys (vote_request f.from f.to f.term f.index f.prior) }
{
    is_start(f.from, f.to, f.term)
        & is_index(f.index)
        & is_pair(f.index, f.prior)
        & (f.prior < f.term)
}

// Kind 2: the rules of every frame, and "yes 0 or 1".
fn is_vote_answer(f: Fields) -> bool
    ensures { result ≡ obeys (vote_answer f.from f.to f.term f.reply) }
{
    is_start(f.from, f.to, f.term) & is_reply(f.reply)
}

// "Kind 3: count at most 4, previous index + count at most 256", and the entry rule. (The entries copied by themselves: a part of the
// struct in their place is copied together with the count before them, and has to wait for its store.)
#[tactic(auto, using(crate::specs::Laws::steps))]
fn is_append(f: Fields) -> bool
    requires { f.count ≤ entry_limit }
    ensures { result ≡ obeys (append f.from f.to f.term f.index f.prior f.commit (listed f.entries 0 f.count)) }
{
    let count = f.count;
    let entries = f.entries;
    is_start(f.from, f.to, f.term)
        & is_index(f.index)
        & is_pair(f.index, f.prior)
        & is_index(f.commit)
        & (count as usize <= Fields::ENTRIES)
        & (f.index as u32 + count as u32 <= Fields::LOG as u32)
        & in_order(&entries[..count as usize], f.prior, f.term)
}

// "Kind 4: a no names index 0."
fn is_append_answer(f: Fields) -> bool
    ensures { result ≡ obeys (append_answer f.from f.to f.term f.reply f.index) }
{
    is_start(f.from, f.to, f.term)
        & is_reply(f.reply)
        & is_index(f.index)
        & ((f.reply == 1) | (f.index == 0))
}

// The rules of the fields' kind. (An inside call, of the reader: it knows that the entries are at most four. Each arm returns by itself: where they
// meet, the tests are turned round, and a vote request takes 2 ns more to read and to write.)
#[tactic(auto, unfolding(crate::specs::Message::by_kind))]
pub fn obeys(f: Fields) -> bool
    requires { f.count ≤ entry_limit }
    ensures { result ≡ obeys (message_of f) }
{
    match f.kind {
        Fields::VOTE_REQUEST => return is_vote_request(f),
        Fields::VOTE_ANSWER => return is_vote_answer(f),
        Fields::APPEND => return is_append(f),
        _ => return is_append_answer(f),
    }
}

// An entry past the count is 0.
fn is_unused(count: u8, at: u8, e: Entry) -> bool
    ensures { result ≡ is_unused count at e }
{
    (at < count) | ((e.term == 0) & (e.order == 0))
}

// So are all entries past the count. (Four places, four tests: the definition's own text, and no file.)
fn entries_unused(f: Fields) -> bool
    ensures { result ≡ entries_unused f.count f.entries }
{
    let n = f.count;
    is_unused(n, 0, f.entries[0])
        & is_unused(n, 1, f.entries[1])
        & is_unused(n, 2, f.entries[2])
        & is_unused(n, 3, f.entries[3])
}

// A field that the kind does not have is 0.
#[tactic(auto, unfolding(crate::specs::Message::by_kind))]
fn fields_unused(f: Fields) -> bool
    ensures { result ≡ fields_unused f }
{
    match f.kind {
        Fields::VOTE_REQUEST => (f.commit == 0) & (f.reply == 0) & (f.count == 0),
        Fields::VOTE_ANSWER => (f.index == 0) & (f.prior == 0) & (f.commit == 0) & (f.count == 0),
        Fields::APPEND => f.reply == 0,
        _ => (f.prior == 0) & (f.commit == 0) & (f.count == 0),
    }
}

// The fields are one frame: at most four entries, a kind of the four, the rules of the kind, and nothing that the kind does not have.
#[tactic(auto, unfolding(crate::specs::Fields::one_frame))]
pub fn is_frame(f: Fields) -> bool
    ensures { result ≡ one_frame f }
{
    if Fields::ENTRIES < f.count as usize {
        return false;
    }
    (Fields::VOTE_REQUEST <= f.kind)
        & (f.kind <= Fields::APPEND_ANSWER)
        & obeys(f)
        & fields_unused(f)
        & entries_unused(f)
}
