// "Timeout. Leader: nothing. Otherwise term + 1, candidate, vote and votes = itself, vote request to every other member."
ghost use Rattle.std.specs.Prelude.{◌≡◌, MatchResult};
ghost use Rattle.frames.specs.Refusal.{number};
ghost use Rattle.raft.specs.Order.{blank};
ghost use Rattle.raft.specs.Outcome.{refuse};
ghost use Rattle.raft.specs.Timeout.{timeout};
ghost use Rattle.raft.specs.Event.{step, times_out};
ghost use Rattle.record.specs.Calls.{state_of, Ready, Runs};
ghost use Rattle.record.specs.Deciding.{one_entry, Decides};

use changes::{standing, step};
use finishing::finish_one;
use frames::Refusal;
use leader::won;
use record::{Decision, Record, Send, Step};
use rules::is_majority;

// 9, or a candidate's vote requests, or "A majority already (one member): it leads at once."
fn decide(n: Record, terms: &[u32], orders: &[u64]) -> Result<Decision, Refusal>
    requires { Ready n terms.now orders.now }
    ensures { MatchResult result
        (λ d. Decides n.last d (one_entry d.next.term blank) terms.now orders.now (timeout (state_of n terms.now orders.now)))
        (λ r. refuse (number r) ≡ timeout (state_of n terms.now orders.now)) }
{
    if n.role == Record::LEADER {
        return Ok(step(n, Send::Nothing));
    }
    if n.term == Record::LAST_TERM {
        return Err(Refusal::LastTerm);
    }
    let candidate = standing(n);
    if is_majority(n.members, rules::bit(n.me)) {
        return Ok(won(candidate, terms, orders));
    }
    Ok(step(candidate, Send::Requests))
}

// A timeout at a record that is known to be good.
pub fn run_timeout(
    n: Record,
    terms: &mut [u32],
    orders: &mut [u64],
    journal: &mut [u8],
    messages: &mut [u8],
) -> Result<Step<Record>, Refusal>
    requires { Ready n terms.old orders.old }
    ensures { Runs (step times_out (state_of n terms.old orders.old)) n
        terms.old orders.old journal.old messages.old result
        terms.new orders.new journal.new messages.new }
{
    let d = decide(n, &terms[..], &orders[..])?;
    let next = d.next;
    finish_one(
        n,
        d,
        next.term,
        Record::BLANK,
        terms,
        orders,
        journal,
        messages,
    )
}
