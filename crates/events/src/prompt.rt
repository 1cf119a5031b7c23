// "Prompt (leader): an append to each."
ghost use Rattle.std.specs.Prelude.{◌≡◌, List, [], ℕ, ◌≤◌, IfOk};
ghost use Rattle.frames.specs.Limits.{log_limit};
ghost use Rattle.raft.specs.Prompt.{prompt};
ghost use Rattle.raft.specs.Event.{step, is_prompted};
ghost use Rattle.record.specs.Calls.{state_of, Ready, Runs};
ghost use Rattle.record.specs.Deciding.{DecidesOrRefuses};

use changes::step;
use finishing::finish;
use frames::Refusal;
use record::{Decision, Record, Send, Step};

// 3, or the appends.
fn decide(n: Record) -> Result<Decision, Refusal>
    requires { n.last ≤ log_limit }
    ensures by_index { (terms orders : List ℕ) → DecidesOrRefuses n.last result [] terms orders (prompt (state_of n terms orders)) }
    ensures first_value { IfOk result (λ d. d.first ≡ d.count) }
{
    if n.role == Record::LEADER {
        return Ok(step(n, Send::Appends));
    }
    Err(Refusal::NotLeader)
}

// A prompt at a record that is known to be good.
pub fn run_prompt(
    n: Record,
    terms: &[u32],
    orders: &[u64],
    journal: &mut [u8],
    messages: &mut [u8],
) -> Result<Step<Record>, Refusal>
    requires { Ready n terms.now orders.now }
    ensures { Runs (step is_prompted (state_of n terms.now orders.now)) n
        terms.now orders.now journal.old messages.old result
        terms.now orders.now journal.new messages.new }
{
    let d = decide(n)?;
    finish(n, d, terms, orders, journal, messages)
}
