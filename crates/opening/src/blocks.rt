// A journal piece by piece: its head, and over a record of fixed size its lines, one alone or the whole lines of a block. The log is lent as C lends it: its
// terms and its orders, apart.
ghost use Rattle.std.specs.Prelude.{◌+◌, ◌≤◌};
ghost use Rattle.frames.specs.Limits.{log_limit};
ghost use Rattle.opening.specs.Calls.{Heads, Advances, Replays, ReplaysLines};

use crate::lines::{head_mask, is_allowed, is_shaped, line_fields};
use crate::{Block, LineFields};
use changes::following;
use frames::{Fields, Refusal};
use record::Record;
use text::line_end;

// The head alone: the fresh record of the box asked for.
#[tactic(auto, unfolding(crate::specs::Calls::heading))]
pub fn replay_head(me: u8, line: &[u8]) -> Result<Record, Refusal>
    ensures { Heads me line.now result }
{
    let mask = head_mask(me, line).ok_or(Refusal::NoHead)?;
    Ok(Record::fresh(me, mask))
}

// The record with a line replayed: a follower, commit 0.
#[tactic(auto, unfolding(raft::specs::Append::following, journal::specs::Opening::restarted))]
fn after(n: Record, l: LineFields) -> Record
    requires { l.kept + l.count ≤ log_limit }
    ensures { Advances n l result }
{
    let mut r = n;
    r.term = l.term;
    r.vote = l.vote;
    r.last = l.kept + l.count as u16;
    r.commit = 0;
    following(r)
}

// One whole line, with its line feed, over any record.
#[tactic(auto, unfolding(crate::specs::Calls::replaying, crate::specs::Calls::replaying_by, journal::specs::Opening::replayed, journal::specs::Lines::line_shaped, journal::specs::Lines::count_in, frames::specs::Reading::is_line))]
pub fn replay(
    n: Record,
    line: &[u8],
    terms: &mut [u32; Record::LOG],
    orders: &mut [u64; Record::LOG],
) -> Result<Record, Refusal>
    ensures { Replays n line.now terms.old orders.old result terms.new orders.new }
{
    if !is_shaped(line) {
        return Err(Refusal::BadLine);
    }
    if Fields::ENTRIES < digits::get::<u8>(line, 20) as usize {
        return Err(Refusal::BadLine);
    }
    let l = line_fields(line);
    if !is_allowed(n, l, &terms[..]) {
        return Err(Refusal::BadLine);
    }
    rules::store(
        terms,
        orders,
        l.kept as usize,
        &l.entries[..l.count as usize],
    );
    Ok(after(n, l))
}

// The whole lines of some bytes over a record, up to the first that breaks a rule. (A loop from line end to line end, since lines and bytes so far are the answer also where it
// stops.)
pub fn replay_lines(
    n: Record,
    bytes: &[u8],
    terms: &mut [u32; Record::LOG],
    orders: &mut [u64; Record::LOG],
) -> Block
    ensures { ReplaysLines n bytes.now terms.old orders.old result terms.new orders.new }
{
    let mut state = n;
    let mut at = 0;
    let mut lines: usize = 0;
    let end = loop {
        let end = line_end(bytes, at);
        if end == at {
            break Ok(());
        }
        match replay(state, &bytes[at..end], terms, orders) {
            Ok(next) => state = next,
            Err(refusal) => break Err(refusal),
        }
        at = end;
        lines += 1;
    };
    Block {
        end,
        state,
        bytes: at,
        lines,
    }
}
