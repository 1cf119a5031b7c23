// Any bytes at a record that is known to be good.
ghost use Rattle.raft.specs.Event.{step, receives};
ghost use Rattle.record.specs.Calls.{state_of, Ready, Runs};

use crate::deliver::arrive;
use finishing::{finish_adding, finish_one};
use frames::{Fields, Refusal};
use record::{Record, Step};

// 1 where they are not one frame; 2 where it is not for this box; and then what its kind decides, finished: a vote answer with the blank, should it win.
pub fn run_bytes(
    n: Record,
    bytes: &[u8],
    terms: &mut [u32],
    orders: &mut [u64],
    journal: &mut [u8],
    messages: &mut [u8],
) -> Result<Step<Record>, Refusal>
    requires { Ready n terms.old orders.old }
    ensures { Runs (step (receives bytes.now) (state_of n terms.old orders.old)) n
        terms.old orders.old journal.old messages.old result
        terms.new orders.new journal.new messages.new }
{
    let fields = frame_reader::read(bytes)?;
    let d = arrive(n, fields, &terms[..], &orders[..])?;
    // (What it may add: one test of the kind, so no match.)
    if fields.kind == Fields::VOTE_ANSWER {
        return finish_one(
            n,
            d,
            fields.term,
            Record::BLANK,
            terms,
            orders,
            journal,
            messages,
        );
    }
    let offered = &fields.entries[..fields.count as usize];
    finish_adding(n, d, offered, terms, orders, journal, messages)
}
