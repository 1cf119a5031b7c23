// "Append answer": what it tells of its sender.
ghost use Rattle.raft.specs.AppendAnswer.{heard};
ghost use Rattle.record.specs.Deciding.{Becomes};
ghost use Rattle.leader.specs.Required.{HeardFrom};

use record::{Lead, Record};

// (The reply is its number in the frame: `heard` is promised for any.)
// "Yes: match = the larger of match and the index named; next = the larger of next and match + 1. No: .."
pub fn heard(n: Record, from: u8, reply: u8, index: u16) -> Record
    requires { HeardFrom n from reply index }
    ensures { Becomes n result (λ s. heard s from reply index) }
{
    let at = (from - 1) as usize;
    let lead = n.lead;
    let mut next = lead.next;
    let mut matched = lead.matched;
    let m = rules::match_after(reply, index, matched[at]);
    next[at] = rules::next_heard(reply, next[at], m);
    matched[at] = m;
    let told = Lead { next, matched };
    let mut r = n;
    r.lead = told;
    r
}
