// "Append answer", and the commit that an append or the matching boxes bring. The definitions are over a reply's number on the wire, and so is the code.
#![tactic(auto, unfolding(raft::specs::AppendAnswer::match_after, raft::specs::AppendAnswer::next_heard))]

ghost use Rattle.std.specs.Prelude.{◌≡◌, cond, ◌&&◌, eqb, ltb, ◌≤◌};
ghost use Rattle.frames.specs.Limits.{log_limit};
ghost use Rattle.raft.specs.Append.{commit_after};
ghost use Rattle.raft.specs.AppendAnswer.{match_after, next_heard};

// "the larger of itself and the smaller of (leader's commit, previous index + count)"
pub fn commit_after(own: u16, leaders: u16, end: u16) -> u16
    ensures { result ≡ commit_after own leaders end }
{
    own.max(leaders.min(end))
}

// "Yes: match = the larger of match and the index named"
pub fn match_after(reply: u8, index: u16, matched: u16) -> u16
    ensures { result ≡ match_after reply index matched }
{
    if reply == 1 {
        return matched.max(index);
    }
    matched
}

// "next = the larger of next and match + 1. No: next = the larger of next - 1 and match + 1."
pub fn next_heard(reply: u8, next: u16, matched: u16) -> u16
    requires matched_le_log_limit { matched ≤ log_limit }
    requires le_next { 1 ≤ next }
    ensures { result ≡ next_heard reply next matched }
{
    if reply == 1 {
        return next.max(matched + 1);
    }
    (next - 1).max(matched + 1)
}

// "the largest index above commit whose entry has the current term": the largest index that a majority matches, with the term of its entry.
pub fn commit_at(commit: u16, own: u32, found: u16, term: u32) -> u16
    ensures { result ≡ cond (ltb commit found && eqb term own) found commit }
{
    if (commit < found) & (term == own) {
        return found;
    }
    commit
}
