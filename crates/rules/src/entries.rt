// "Append": the entry before, the search for a conflict, and storing what is added. The log is lent as C lends it, its terms and its orders apart, entry i at
// place i-1.
ghost use Rattle.std.specs.Prelude.{◌≡◌, List, ℕ, ◌+◌, ◌≤◌, ltb, length};
ghost use Rattle.digits.specs.Room.{over};
ghost use Rattle.frames.specs.Limits.{log_limit};
ghost use Rattle.raft.specs.Record.{term_at};
ghost use Rattle.raft.specs.Lent.{entries_of, terms_of, orders_of};
ghost use Rattle.raft.specs.Append.{lacks, stop};
ghost use Rattle.rules.specs.Required.{Storable};

use frames::Entry;

// The term of the entry at an index, 0 at the start.
pub fn term_at(terms: &[u32], index: u16) -> u32
    requires { index ≤ length terms.now }
    ensures { (orders : List ℕ) (last : ℕ) → index ≤ last → result ≡ term_at (entries_of terms.now orders 0 last) index }
{
    if index == 0 {
        return 0;
    }
    terms[(index - 1) as usize]
}

// "If previous index is not 0 and the log lacks an entry there with that term". The terms are the log's own, no more.
pub fn lacks(terms: &[u32], index: u16, term: u32) -> bool
    ensures { (orders : List ℕ) → result ≡ lacks (entries_of terms.now orders 0 (length terms.now)) index term }
{
    if index == 0 {
        return false;
    }
    match terms.get((index - 1) as usize) {
        Some(held) => *held != term,
        None => true,
    }
}

// "the search stops at the first entry whose index holds another term": that place, or the end of the log or of what is offered. The terms are the log's own, no
// more. A loop that yields its place by break: the project's own form for this search ("Which shape goes where").
pub fn search(terms: &[u32], index: usize, offered: &[Entry]) -> usize
    requires { index ≤ length terms.now }
    ensures by_index { (orders : List ℕ) → result ≡ stop (entries_of terms.now orders 0 (length terms.now)) index offered.now }
    ensures upper_bound { result ≤ index + length offered.now }
{
    let end = index + offered.len();
    let mut at = index;
    loop {
        if at == end {
            break at;
        }
        if at == terms.len() {
            break at;
        }
        if terms[at] != offered[at - index].term {
            break at;
        }
        at += 1;
    }
}

// "would cut at or below commit": what is cut first stands behind the search's place.
pub fn cuts_committed(place: usize, commit: u16) -> bool
    requires { place ≤ log_limit }
    ensures { result ≡ ltb place commit }
{
    place + 1 <= commit as usize
}

// Entries stored behind each other, from a place of the log on.
pub fn store(terms: &mut [u32], orders: &mut [u64], at: usize, added: &[Entry])
    requires { Storable terms.old orders.old at added.now }
    ensures terms_after { terms.new ≡ over terms.old at (terms_of added.now) }
    ensures orders_after { orders.new ≡ over orders.old at (orders_of added.now) }
{
    for (i, e) in added.iter().enumerate() {
        terms[at + i] = e.term;
        orders[at + i] = e.order;
    }
}
