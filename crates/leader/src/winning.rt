// "Winning", as T-01 amends it: the box leads, adds the blank where there is room, settles its commit, and sends an append to each.
ghost use Rattle.std.specs.Prelude.{◌≡◌, ◌≤◌};
ghost use Rattle.frames.specs.Limits.{log_limit};
ghost use Rattle.raft.specs.Order.{blank};
ghost use Rattle.raft.specs.Winning.{leading, won};
ghost use Rattle.record.specs.Calls.{state_of};
ghost use Rattle.record.specs.Deciding.{one_entry, Becomes, Decides};
ghost use Rattle.record.specs.ChangeLaws.{next_of};
ghost use Rattle.changes.specs.Required.{AtBox};
ghost use Rattle.leader.specs.Required.{MayLead};

use crate::commit::settled;
use crate::entries::adding;
use changes::step;
use frames::Fields;
use record::{Decision, Lead, Record, Send};
use rules::is_other;

// "Next = last index + 1 .. for the others"
fn next_after(n: Record, i: u8) -> u16
    requires { AtBox n i }
    ensures { result ≡ next_of n i }
{
    if is_other(n.me, n.members, i) {
        return n.last + 1;
    }
    0
}

// "Next = last index + 1, match = 0 for the others" (Seven calls in a row, as the definition has them.)
fn leading(n: Record) -> Record
    requires { n.last ≤ log_limit }
    ensures { Becomes n result leading }
{
    let next = [
        next_after(n, 1),
        next_after(n, 2),
        next_after(n, 3),
        next_after(n, 4),
        next_after(n, 5),
        next_after(n, 6),
        next_after(n, 7),
    ];
    let matched = [0u16; Record::BOXES];
    let lead = Lead { next, matched };
    let mut r = n;
    r.role = Record::LEADER;
    r.votes = 0;
    r.lead = lead;
    r
}

// The blank is the entry that is offered; a full log does not take it.
pub fn won(n: Record, terms: &[u32], orders: &[u64]) -> Decision
    requires { MayLead n terms.now orders.now }
    ensures decides { Decides n.last result (one_entry n.term blank) terms.now orders.now
        (won (state_of n terms.now orders.now)) }
    ensures term_value { result.next.term ≡ n.term }
{
    let first = leading(n);
    if Fields::LOG <= n.last {
        return step(settled(first, terms, orders), Send::Appends);
    }
    adding(first, terms, orders)
}
