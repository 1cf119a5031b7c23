// "Append", at a box that is in the append's term.
ghost use Rattle.std.specs.Prelude.{List, ℕ, length};
ghost use Rattle.raft.specs.Append.{accept, on_append};
ghost use Rattle.record.specs.Calls.{state_of};
ghost use Rattle.record.specs.Deciding.{DecidesOrRefuses};
ghost use Rattle.messages.specs.Required.{Offered, Joined};

use changes::{following, step};
use frames::{Entry, Refusal};
use record::{Decision, Record, Send};

// The search's place decides: all is held already, a cut at or below commit, or entries that are added.
fn accept(
    t: Record,
    from: u8,
    index: u16,
    commit: u16,
    entries: &[Entry],
    terms: &[u32],
) -> Result<Decision, Refusal>
    requires { Joined t index (length entries.now) terms.now }
    ensures { (orders : List ℕ) → DecidesOrRefuses t.last result entries.now terms.now orders
        (accept (state_of t terms.now orders) from index commit entries.now) }
{
    let end = index + entries.len() as u16;
    let place = rules::search(&terms[..t.last as usize], index as usize, entries);
    let mut next = following(t);
    next.commit = rules::commit_after(t.commit, commit, end);
    let yes = Send::AppendAnswer {
        to: from,
        reply: 1,
        index: end,
    };
    if place == end as usize {
        return Ok(step(next, yes));
    }
    if rules::cuts_committed(place, t.commit) {
        return Err(Refusal::CutsCommitted);
    }
    next.last = end;
    Ok(Decision {
        next,
        kept: place as u16,
        first: (place - index as usize) as u8,
        count: entries.len() as u8,
        send: yes,
    })
}

// 6 at a leader; "If previous index is not 0 and the log lacks an entry there with that term: no."
pub fn append(
    t: Record,
    from: u8,
    index: u16,
    prior: u32,
    commit: u16,
    entries: &[Entry],
    terms: &[u32],
) -> Result<Decision, Refusal>
    requires { Offered t index (length entries.now) terms.now }
    ensures { (orders : List ℕ) → DecidesOrRefuses t.last result entries.now terms.now orders
        (on_append (state_of t terms.now orders) from index prior commit entries.now) }
{
    if t.role == Record::LEADER {
        return Err(Refusal::SecondLeader);
    }
    if rules::lacks(&terms[..t.last as usize], index, prior) {
        let no = Send::AppendAnswer {
            to: from,
            reply: 0,
            index: 0,
        };
        return Ok(step(following(t), no));
    }
    accept(t, from, index, commit, entries, terms)
}
