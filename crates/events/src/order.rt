// "Order (leader). Entry with the current term, then an append to each other member."
ghost use Rattle.std.specs.Prelude.{◌≡◌};
ghost use Rattle.raft.specs.Order.{order};
ghost use Rattle.raft.specs.Event.{step, takes_order};
ghost use Rattle.record.specs.Calls.{state_of, Ready, Runs};
ghost use Rattle.record.specs.Deciding.{one_entry, DecidesOrRefuses};

use finishing::finish_one;
use frames::{Fields, Refusal};
use leader::adding;
use record::{Decision, Record, Step};

// 3, 13, 4, or the entry that is offered and the appends.
fn decide(n: Record, o: u64, terms: &[u32], orders: &[u64]) -> Result<Decision, Refusal>
    requires { Ready n terms.now orders.now }
    ensures { DecidesOrRefuses n.last result (one_entry n.term o) terms.now orders.now
        (order o (state_of n terms.now orders.now)) }
{
    if n.role != Record::LEADER {
        return Err(Refusal::NotLeader);
    }
    if o == Record::BLANK {
        return Err(Refusal::BlankOrder);
    }
    if Fields::LOG <= n.last {
        return Err(Refusal::LogFull);
    }
    Ok(adding(n, terms, orders))
}

// An order at a record that is known to be good.
pub fn run_order(
    n: Record,
    o: u64,
    terms: &mut [u32],
    orders: &mut [u64],
    journal: &mut [u8],
    messages: &mut [u8],
) -> Result<Step<Record>, Refusal>
    requires { Ready n terms.old orders.old }
    ensures { Runs (step (takes_order o) (state_of n terms.old orders.old)) n
        terms.old orders.old journal.old messages.old result
        terms.new orders.new journal.new messages.new }
{
    let d = decide(n, o, &terms[..], &orders[..])?;
    finish_one(n, d, n.term, o, terms, orders, journal, messages)
}
