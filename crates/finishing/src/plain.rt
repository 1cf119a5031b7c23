// A step that adds no entry: the log is lent to be read alone.
ghost use Rattle.std.specs.Prelude.{[]};
ghost use Rattle.record.specs.Calls.{Runs};
ghost use Rattle.record.specs.Deciding.{decided, AddsNone};

use crate::bytes::{put_line, put_messages};
use crate::measuring::measured;
use frames::Refusal;
use record::{Decision, Record, Step};

// A step that adds no entry. (No generic one with `finish_adding`: a prompt's log is lent by `&`, and nothing can be stored through it.)
pub fn finish(
    n: Record,
    d: Decision,
    terms: &[u32],
    orders: &[u64],
    journal: &mut [u8],
    messages: &mut [u8],
) -> Result<Step<Record>, Refusal>
    requires { AddsNone n d terms.now orders.now }
    ensures { Runs (decided d [] terms.now orders.now) n
        terms.now orders.now journal.old messages.old result
        terms.now orders.now journal.new messages.new }
{
    let next = d.next;
    let send = d.send;
    let sizes = measured(n, d, journal.len(), messages.len())?;
    put_line(journal, sizes.line, next, d.kept, terms, orders);
    put_messages(messages, send, next, terms, orders);
    Ok(Step {
        next,
        line: sizes.line,
        sent: sizes.sent,
    })
}
