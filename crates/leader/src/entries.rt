// A leader's entry: an order's, or the blank.
ghost use Rattle.std.specs.Prelude.{◌≡◌, ℕ};
ghost use Rattle.raft.specs.Led.{led};
ghost use Rattle.raft.specs.Order.{ordered};
ghost use Rattle.record.specs.Calls.{state_of};
ghost use Rattle.record.specs.Deciding.{one_entry, Decides};
ghost use Rattle.leader.specs.Required.{MayOrder};

use crate::commit::ordered;
use record::{Decision, Record, Send};

// "Entry with the current term, then an append to each other member": the entry that is offered comes behind the log.
pub fn adding(n: Record, terms: &[u32], orders: &[u64]) -> Decision
    requires { MayOrder n terms.now orders.now }
    ensures by_index { (o : ℕ) → Decides n.last result (one_entry n.term o) terms.now orders.now
        (led (ordered (state_of n terms.now orders.now) o)) }
    ensures term_value { result.next.term ≡ n.term }
{
    let next = ordered(n, terms, orders);
    let send = Send::Appends;
    Decision {
        next,
        kept: n.last,
        first: 0,
        count: 1,
        send,
    }
}
