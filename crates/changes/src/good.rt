// The record's rules, in 01's order. A record is whatever the caller hands over.
ghost use Rattle.std.specs.Prelude.{◌≡◌, List, ℕ, ◌≤◌, length};
ghost use Rattle.frames.specs.Limits.{log_limit};
ghost use Rattle.raft.specs.Record.{good};
ghost use Rattle.record.specs.Calls.{state_of};
ghost use Rattle.record.specs.GoodLaws.{progress_of, all_progress};
ghost use Rattle.changes.specs.Required.{AtBox};

use frames::Fields;
use record::Record;
use rules::{are_votes, in_order, is_membership, is_other, is_role, is_vote};

// Next and match of box i: "0 unless leader, and 0 for itself and non-members; for the others match is below next, .."
fn progress_of(n: Record, i: u8) -> bool
    requires { AtBox n i }
    ensures { result ≡ progress_of n i }
{
    let at = (i - 1) as usize;
    let lead = n.lead;
    rules::is_progress(
        (n.role == Record::LEADER) & is_other(n.me, n.members, i),
        n.last,
        lead.next[at],
        lead.matched[at],
    )
}

// Next and match of all seven boxes. (Seven calls and no loop: no way out early, and the definition's own text.)
fn all_progress(n: Record) -> bool
    requires { n.last ≤ log_limit }
    ensures { result ≡ all_progress n }
{
    progress_of(n, 1)
        & progress_of(n, 2)
        & progress_of(n, 3)
        & progress_of(n, 4)
        & progress_of(n, 5)
        & progress_of(n, 6)
        & progress_of(n, 7)
}

// Every rule of a record, whatever the orders of its log are.
pub fn is_good(n: Record, terms: &[u32]) -> bool
    requires { length terms.now ≡ log_limit }
    ensures { (orders : List ℕ) → result ≡ good (state_of n terms.now orders) }
{
    let last = n.last;
    if Fields::LOG < last {
        return false;
    }
    if !is_membership(n.me, n.members) {
        return false;
    }
    is_vote(n.members, n.vote)
        & in_order(&terms[..last as usize], n.term)
        & (n.commit <= last)
        & is_role(n.role, n.term, n.vote, n.me)
        & are_votes(n.role, n.votes, n.members, n.me)
        & all_progress(n)
}
