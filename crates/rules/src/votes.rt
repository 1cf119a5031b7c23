// "Vote request": what a vote hangs on.
ghost use Rattle.std.specs.Prelude.{◌≡◌};
ghost use Rattle.raft.specs.Newer.{as_new};
ghost use Rattle.raft.specs.VoteRequest.{is_granted};

// "at least as new: higher last term, or the same and last index no smaller": the asker's last index and term against the box's own.
fn is_as_new(index: u16, term: u32, own_index: u16, own_term: u32) -> bool
    ensures { result ≡ as_new index term own_index own_term }
{
    (own_term < term) | ((term == own_term) & (own_index <= index))
}

// "Yes exactly when vote is 0 or the asker and the asker's log is at least as new"
pub fn is_granted(vote: u8, from: u8, index: u16, term: u32, own_index: u16, own_term: u32) -> bool
    ensures { result ≡ is_granted vote from index term own_index own_term }
{
    ((vote == 0) | (vote == from)) & is_as_new(index, term, own_index, own_term)
}
