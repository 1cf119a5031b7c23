// "Vote request", at a box that is in the request's term.
ghost use Rattle.std.specs.Prelude.{List, ℕ};
ghost use Rattle.frames.specs.declared.Entry.{Entry};
ghost use Rattle.raft.specs.VoteRequest.{on_vote_request};
ghost use Rattle.record.specs.Calls.{state_of};
ghost use Rattle.record.specs.Deciding.{Decides};
ghost use Rattle.messages.specs.Required.{Lent};

use changes::step;
use record::{Decision, Record, Send};

// "Yes exactly when vote is 0 or the asker and the asker's log is at least as new .. A yes sets vote."
pub fn vote_request(t: Record, from: u8, index: u16, prior: u32, terms: &[u32]) -> Decision
    requires { Lent t terms.now }
    ensures { (offered : List Entry) (orders : List ℕ) → Decides t.last result offered terms.now orders
        (on_vote_request (state_of t terms.now orders) from index prior) }
{
    let own = rules::term_at(terms, t.last);
    if rules::is_granted(t.vote, from, index, prior, t.last, own) {
        let mut next = t;
        next.vote = from;
        let yes = Send::VoteAnswer { to: from, reply: 1 };
        return step(next, yes);
    }
    let no = Send::VoteAnswer { to: from, reply: 0 };
    step(t, no)
}
