// "Commit at a leader": the largest index above commit whose entry has the current term and which a majority matches.
//
// The largest index that a majority matches is one that some box matches, so seven tests find it, however long the log is. (Seven calls in a row and no loop: the definitions
// are so, and need no invariant.)
ghost use Rattle.std.specs.Prelude.{◌≡◌, true, List, [], ◌∷◌, ◌++◌, ℕ, ◌+◌, ◌≤◌};
ghost use Rattle.frames.specs.Limits.{IsBox};
ghost use Rattle.raft.specs.Majority.{bit};
ghost use Rattle.raft.specs.Record.{term_at};
ghost use Rattle.raft.specs.Commit.{matches, if_matches, matching, is_matched, settle};
ghost use Rattle.raft.specs.LargestMatch.{larger_matched, largest_matched};
ghost use Rattle.raft.specs.Order.{ordered};
ghost use Rattle.record.specs.Calls.{entries_of, with_entries, state_of};
ghost use Rattle.record.specs.Deciding.{Found, Tested};
ghost use Rattle.leader.specs.Required.{MaySettle, OneMore, MayOrder};

use record::Record;
use rules::{bit, is_majority, term_at};

// What box i matches; the leader itself its own last index.
fn matches(n: Record, i: u8) -> u16
    requires { IsBox i }
    ensures { Found n result (λ s. matches s i) }
{
    if i == n.me {
        return n.last;
    }
    let at = (i - 1) as usize;
    let lead = n.lead;
    lead.matched[at]
}

// Box i's bit, where it matches an index.
fn if_matches(n: Record, index: u16, i: u8) -> u8
    requires { IsBox i }
    ensures found { Found n result (λ s. if_matches s index i) }
    ensures upper_bound { result ≤ bit i }
{
    if index <= matches(n, i) {
        return bit(i);
    }
    0
}

// The boxes that match an index.
fn matching(n: Record, index: u16) -> u8
    ensures { Found n result (λ s. matching s index) }
{
    if_matches(n, index, 1)
        + if_matches(n, index, 2)
        + if_matches(n, index, 3)
        + if_matches(n, index, 4)
        + if_matches(n, index, 5)
        + if_matches(n, index, 6)
        + if_matches(n, index, 7)
}

// A majority matches an index.
fn is_matched(n: Record, index: u16) -> bool
    ensures { Tested n result (λ s. is_matched s index) }
{
    is_majority(n.members, matching(n, index))
}

// The larger of what was found and what box i matches.
fn larger_matched(n: Record, found: u16, i: u8) -> u16
    requires { IsBox i }
    ensures { Found n result (λ s. larger_matched s found i) }
{
    let m = matches(n, i);
    if found < m {
        if is_matched(n, m) {
            return m;
        }
    }
    found
}

// The largest index that a majority matches, or 0.
fn largest_matched(n: Record) -> u16
    ensures { Found n result largest_matched }
{
    let a = larger_matched(n, 0, 1);
    let b = larger_matched(n, a, 2);
    let c = larger_matched(n, b, 3);
    let d = larger_matched(n, c, 4);
    let e = larger_matched(n, d, 5);
    let f = larger_matched(n, e, 6);
    larger_matched(n, f, 7)
}

// The leader with its commit settled, its log being the lent one.
pub fn settled(n: Record, terms: &[u32], orders: &[u64]) -> Record
    requires { MaySettle n terms.now orders.now }
    ensures orders_value { state_of result terms.now orders.now ≡ settle (state_of n terms.now orders.now) }
    ensures last_value { result.last ≡ n.last }
{
    let found = largest_matched(n);
    let mut r = n;
    r.commit = rules::commit_at(n.commit, n.term, found, term_at(terms, found));
    r
}

// The term of the entry at an index of a log that has one entry more, of the current term, than is lent.
fn term_after(n: Record, terms: &[u32], index: u16) -> u32
    requires { OneMore n terms.now index }
    ensures { (orders : List ℕ) (o : ℕ) →
        result ≡ term_at (entries_of terms.now orders 0 n.last ++ (record { term = n.term; order = o } ∷ [])) index }
{
    if index == n.last + 1 {
        return n.term;
    }
    term_at(terms, index)
}

// "Entry with the current term", and commit settled with it.
pub fn ordered(n: Record, terms: &[u32], orders: &[u64]) -> Record
    requires { MayOrder n terms.now orders.now }
    ensures by_index { (o : ℕ) →
        with_entries result (entries_of terms.now orders.now 0 n.last ++ (record { term = n.term; order = o } ∷ []))
        ≡ settle (ordered (state_of n terms.now orders.now) o) }
    ensures last_value { result.last ≡ n.last + 1 }
{
    let mut longer = n;
    longer.last = n.last + 1;
    let found = largest_matched(longer);
    let mut r = longer;
    r.commit = rules::commit_at(n.commit, n.term, found, term_after(n, terms, found));
    r
}
