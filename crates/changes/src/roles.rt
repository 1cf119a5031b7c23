// Taking a term, and becoming a follower or a candidate: but for the fresh record (`Record::fresh`) and who begins to lead (`leader`) only here is a role written.
ghost use Rattle.std.specs.Prelude.{◌≡◌};
ghost use Rattle.raft.specs.AnyMessage.{taken};
ghost use Rattle.raft.specs.Append.{following};
ghost use Rattle.raft.specs.Timeout.{standing};
ghost use Rattle.record.specs.Deciding.{Becomes};
ghost use Rattle.changes.specs.Required.{MayStand};

use record::{Lead, Record};
use rules::bit;

// "A candidate becomes follower."
pub fn following(n: Record) -> Record
    ensures { Becomes n result following }
{
    let mut r = n;
    r.role = Record::FOLLOWER;
    r.votes = 0;
    let lead = Lead::none();
    r.lead = lead;
    r
}

// "Any message with a higher term: take that term, vote 0, follower"
pub fn taken(n: Record, term: u32) -> Record
    ensures { Becomes n result (taken term) }
{
    if n.term < term {
        let mut r = following(n);
        r.term = term;
        r.vote = 0;
        return r;
    }
    n
}

// "term + 1, candidate, vote and votes = itself"
pub fn standing(n: Record) -> Record
    requires { MayStand n }
    ensures { Becomes n result standing }
{
    let mut r = n;
    r.term = n.term + 1;
    r.vote = n.me;
    r.role = Record::CANDIDATE;
    r.votes = bit(n.me);
    let lead = Lead::none();
    r.lead = lead;
    r
}
