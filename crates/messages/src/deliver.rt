// "Any message": whom it is for, its term, which is settled once, and then its kind.
ghost use Rattle.std.specs.Prelude.{◌≡◌, List, ℕ, ◌≤◌};
ghost use Rattle.frames.specs.declared.Entry.{Entry};
ghost use Rattle.frames.specs.Fields.{message_of};
ghost use Rattle.frames.specs.Limits.{IsBox, log_limit};
ghost use Rattle.raft.specs.Receive.{is_for, stale, current, deliver, arrive};
ghost use Rattle.record.specs.Calls.{state_of};
ghost use Rattle.record.specs.Deciding.{Decides, DecidesOrRefuses};
ghost use Rattle.messages.specs.Required.{Read, Delivered, InTerm, brought};

use crate::append::append;
use crate::append_answer::append_answer;
use crate::vote_answer::vote_answer;
use crate::vote_request::vote_request;
use changes::{step, taken};
use frames::{Fields, Refusal};
use record::{Decision, Record, Send};

// "A lower term: a request gets a no with the box's own term; an answer does nothing."
fn stale(n: Record, f: Fields) -> Decision
    requires { n.last ≤ log_limit }
    ensures { (offered : List Entry) (terms orders : List ℕ) →
        Decides n.last result offered terms orders (stale (message_of f) (state_of n terms orders)) }
{
    let to = f.from;
    match f.kind {
        Fields::VOTE_REQUEST => {
            let no = Send::VoteAnswer { to, reply: 0 };
            step(n, no)
        }
        Fields::APPEND => {
            let no = Send::AppendAnswer {
                to,
                reply: 0,
                index: 0,
            };
            step(n, no)
        }
        _ => step(n, Send::Nothing),
    }
}

// Its kind, at a box that is in the message's term.
fn current(t: Record, f: Fields, terms: &[u32], orders: &[u64]) -> Result<Decision, Refusal>
    requires { InTerm t f terms.now orders.now }
    ensures { DecidesOrRefuses t.last result (brought f) terms.now orders.now
        (current (message_of f) (state_of t terms.now orders.now)) }
{
    match f.kind {
        Fields::VOTE_REQUEST => Ok(vote_request(t, f.from, f.index, f.prior, terms)),
        Fields::VOTE_ANSWER => Ok(vote_answer(t, f.from, f.reply, terms, orders)),
        Fields::APPEND => {
            let entries = &f.entries[..f.count as usize];
            append(t, f.from, f.index, f.prior, f.commit, entries, terms)
        }
        _ => append_answer(t, f.from, f.reply, f.index, terms, orders),
    }
}

// "with a higher term: take that term, .., then go on as below."
fn deliver(n: Record, f: Fields, terms: &[u32], orders: &[u64]) -> Result<Decision, Refusal>
    requires { Delivered n f terms.now orders.now }
    ensures { DecidesOrRefuses n.last result (brought f) terms.now orders.now
        (deliver (message_of f) (state_of n terms.now orders.now)) }
{
    if f.term < n.term {
        return Ok(stale(n, f));
    }
    current(taken(n, f.term), f, terms, orders)
}

// "not to this box, from itself, or from a non-member"
fn is_for(n: Record, from: u8, to: u8) -> bool
    requires { IsBox from }
    ensures { (terms orders : List ℕ) → result ≡ is_for (state_of n terms orders) from to }
{
    (to == n.me) & rules::is_other(n.me, n.members, from)
}

// 2, or what the message comes to.
pub fn arrive(n: Record, f: Fields, terms: &[u32], orders: &[u64]) -> Result<Decision, Refusal>
    requires { Read n f terms.now orders.now }
    ensures { DecidesOrRefuses n.last result (brought f) terms.now orders.now
        (arrive (message_of f) (state_of n terms.now orders.now)) }
{
    if !is_for(n, f.from, f.to) {
        return Err(Refusal::NotForThisBox);
    }
    deliver(n, f, terms, orders)
}
