// "Append answer", at a box that is in the answer's term. (The reply is its number in the frame: a `bool` would be made a number again in the next call and in each clause.)
ghost use Rattle.std.specs.Prelude.{◌≡◌, List, ℕ};
ghost use Rattle.frames.specs.declared.Entry.{Entry};
ghost use Rattle.frames.specs.Limits.{IsBox};
ghost use Rattle.raft.specs.AppendAnswer.{sends_again, on_append_answer};
ghost use Rattle.record.specs.Calls.{state_of};
ghost use Rattle.record.specs.Deciding.{DecidesOrRefuses};
ghost use Rattle.messages.specs.Required.{From};

use changes::step;
use frames::Refusal;
use leader::{heard, settled};
use record::{Decision, Record, Send};

// "After a no, or when next is not past the last index, one append to that box."
fn sends_again(n: Record, to: u8, reply: u8) -> bool
    requires { IsBox to }
    ensures { (terms orders : List ℕ) → result ≡ sends_again (state_of n terms orders) to reply }
{
    let at = (to - 1) as usize;
    let lead = n.lead;
    (reply == 0) | (lead.next[at] <= n.last)
}

// Only a leader hears it: 8, or match and next of its sender and with them commit; then perhaps one append more.
pub fn append_answer(
    t: Record,
    from: u8,
    reply: u8,
    index: u16,
    terms: &[u32],
    orders: &[u64],
) -> Result<Decision, Refusal>
    requires { From t from terms.now orders.now }
    ensures { (offered : List Entry) → DecidesOrRefuses t.last result offered terms.now orders.now
        (on_append_answer (state_of t terms.now orders.now) from reply index) }
{
    if t.role != Record::LEADER {
        return Ok(step(t, Send::Nothing));
    }
    if (reply == 1) & (t.last < index) {
        return Err(Refusal::PastLog);
    }
    let next = settled(heard(t, from, reply, index), terms, orders);
    if sends_again(next, from, reply) {
        let again = Send::Append { to: from };
        return Ok(step(next, again));
    }
    Ok(step(next, Send::Nothing))
}
