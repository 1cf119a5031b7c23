// The record's rules that look at a few numbers or at the lent terms alone, in 01's order. Each contract is a definition, which its proof may open. Roles are
// numbers here: the record is whatever the caller hands over, and these rules say which numbers are roles.
#![tactic(auto, unfolding(raft::specs::Record::is_membership, raft::specs::Record::is_vote, raft::specs::Record::is_role, raft::specs::Record::are_votes, raft::specs::Record::is_progress))]

ghost use Rattle.std.specs.Prelude.{◌≡◌, [], ◌≤◌, length};
ghost use Rattle.frames.specs.Limits.{IsBox, log_limit};
ghost use Rattle.frames.specs.Rules.{in_order};
ghost use Rattle.raft.specs.Record.{is_membership, is_vote, is_role, are_votes, is_progress};
ghost use Rattle.raft.specs.Lent.{entries_of};

use crate::mask::holds;
use frames::{Fields, is_box};

// "Numbers 1 to 7", "bit 7 is 0, the mask is not 0 and holds the box itself".
pub fn is_membership(me: u8, members: u8) -> bool
    ensures { result ≡ is_membership me members }
{
    if is_box(me) {
        return (members < Fields::MASKS) & holds(members, me);
    }
    false
}

// "vote, 0 or a member"
pub fn is_vote(members: u8, vote: u8) -> bool
    ensures { result ≡ is_vote members vote }
{
    if vote == 0 {
        return true;
    }
    if is_box(vote) {
        return holds(members, vote);
    }
    false
}

// "A candidate or leader has voted for itself, in a term of at least 1." Roles are 0, 1 and 2: follower, candidate, leader.
pub fn is_role(role: u8, term: u32, vote: u8, me: u8) -> bool
    ensures { result ≡ is_role role term vote me }
{
    (role == 0) | ((role <= 2) & (vote == me) & (1 <= term))
}

// "Votes are 0 unless candidate, then members with itself among them."
pub fn are_votes(role: u8, votes: u8, members: u8, me: u8) -> bool
    requires { IsBox me }
    ensures { result ≡ are_votes role votes members me }
{
    if role == 1 {
        return (votes & members == votes) & holds(votes, me);
    }
    votes == 0
}

// What is kept for one box, where the record sends to it and where not: "match is below next, and next is at most last index + 1", and otherwise
// both are 0.
pub fn is_progress(sends: bool, last: u16, next: u16, matched: u16) -> bool
    requires { last ≤ log_limit }
    ensures { result ≡ is_progress sends last next matched }
{
    if sends {
        return (matched < next) & (next <= last + 1);
    }
    (next == 0) & (matched == 0)
}

// "Entry terms are at least 1, never fall, and none is above the term." Terms that never fall lie between the first and the last of them, so one test an entry
// is enough. The terms are the log's own, no more. It looks at every entry, with no way out early: so the compiler takes several at once.
pub fn in_order(terms: &[u32], term: u32) -> bool
    ensures { result ≡ in_order 0 term (entries_of terms.now [] 0 (length terms.now)) }
{
    let mut ok = true;
    let mut previous: u32 = 1;
    for t in terms {
        ok = ok & (previous <= *t);
        previous = *t;
    }
    ok & (terms.is_empty() | (previous <= term))
}
