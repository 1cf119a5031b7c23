// "vote request to every other member", in rising box number.
ghost use Rattle.std.specs.Prelude.{◌≡◌, [], ◌≤◌, length};
ghost use Rattle.digits.specs.Room.{over};
ghost use Rattle.frames.specs.Limits.{boxes};
ghost use Rattle.record.specs.Calls.{with_entries};
ghost use Rattle.record.specs.Sizes.{shares, request_size};
ghost use Rattle.record.specs.SizeLaws.{asks, others_to};

use crate::others::{put_to_others, shares};
use record::Record;

// The bytes of a vote request.
const REQUEST: usize = 29;

// The bytes of all vote requests.
pub fn requests_size(n: Record) -> usize
    ensures { result ≡ shares n request_size boxes }
{
    shares(n, |_| REQUEST)
}

// A request to each other member; the last entry's term is found by the caller.
pub fn put_requests(room: &mut [u8], n: Record, last_term: u32)
    requires { shares n request_size boxes ≤ length room.old }
    ensures { room.new ≡ over room.old 0 (others_to (with_entries n []) (asks n last_term) boxes) }
{
    put_to_others(room, n, |part, i| {
        frame_writer::put_vote_request(part, n.me, i, n.term, n.last, last_term);
        REQUEST
    });
}
