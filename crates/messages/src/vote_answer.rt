// "Vote answer", at a box that is in the answer's term. (The reply is its number in the frame: a `bool` would be made a number again in the next call and in each clause.)
ghost use Rattle.raft.specs.Order.{blank};
ghost use Rattle.raft.specs.VoteAnswer.{on_vote_answer};
ghost use Rattle.record.specs.Calls.{state_of};
ghost use Rattle.record.specs.Deciding.{one_entry, Decides};
ghost use Rattle.messages.specs.Required.{From};

use changes::step;
use leader::won;
use record::{Decision, Record, Send};

// "At a candidate a yes adds the sender; a majority wins. Otherwise nothing." The blank is offered, should it win.
pub fn vote_answer(t: Record, from: u8, reply: u8, terms: &[u32], orders: &[u64]) -> Decision
    requires { From t from terms.now orders.now }
    ensures { Decides t.last result (one_entry t.term blank) terms.now orders.now
        (on_vote_answer (state_of t terms.now orders.now) from reply) }
{
    let counts = (t.role == Record::CANDIDATE) & (reply == 1);
    if !counts {
        return step(t, Send::Nothing);
    }
    let mut added = t;
    added.votes = t.votes | rules::bit(from);
    if !rules::is_majority(added.members, added.votes) {
        return step(added, Send::Nothing);
    }
    won(added, terms, orders)
}
