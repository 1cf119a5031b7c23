// A step that may add entries: they are stored once the step is sure.
ghost use Rattle.record.specs.Calls.{Runs};
ghost use Rattle.record.specs.Deciding.{one_entry, decided, Sound};

use crate::bytes::{put_line, put_messages};
use crate::measuring::measured;
use frames::{Entry, Refusal};
use record::{Decision, Record, Step};

// A step that may add some of the entries that were offered: they are stored once the step is sure.
pub fn finish_adding(
    n: Record,
    d: Decision,
    offered: &[Entry],
    terms: &mut [u32],
    orders: &mut [u64],
    journal: &mut [u8],
    messages: &mut [u8],
) -> Result<Step<Record>, Refusal>
    requires { Sound n d offered.now terms.old orders.old }
    ensures { Runs (decided d offered.now terms.old orders.old) n
        terms.old orders.old journal.old messages.old result
        terms.new orders.new journal.new messages.new }
{
    let next = d.next;
    let send = d.send;
    let sizes = measured(n, d, journal.len(), messages.len())?;
    let added = &offered[d.first as usize..d.count as usize];
    rules::store(terms, orders, d.kept as usize, added);
    put_line(journal, sizes.line, next, d.kept, &terms[..], &orders[..]);
    put_messages(messages, send, next, &terms[..], &orders[..]);
    Ok(Step {
        next,
        line: sizes.line,
        sent: sizes.sent,
    })
}

// A step that may add one entry: a client's order, or a new leader's blank.
pub fn finish_one(
    n: Record,
    d: Decision,
    term: u32,
    order: u64,
    terms: &mut [u32],
    orders: &mut [u64],
    journal: &mut [u8],
    messages: &mut [u8],
) -> Result<Step<Record>, Refusal>
    requires { Sound n d (one_entry term order) terms.old orders.old }
    ensures { Runs (decided d (one_entry term order) terms.old orders.old) n
        terms.old orders.old journal.old messages.old result
        terms.new orders.new journal.new messages.new }
{
    let offered = [Entry { term, order }, Entry::NONE, Entry::NONE, Entry::NONE];
    finish_adding(n, d, &offered, terms, orders, journal, messages)
}
