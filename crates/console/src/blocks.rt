// A block of lines, answered one behind the other.
ghost use Rattle.console.specs.Calls.{AnswersLines, Within, AllAnswerable};

use crate::lines::answer_known;
use crate::{Answered, AnsweredLines};
use record::Record;

// The lines one behind the other, at a record of which it is known whether it is good.
fn answer_each(
    n: Record,
    known: bool,
    bytes: &[u8],
    terms: &mut [u32],
    orders: &mut [u64],
    room: &mut [u8],
    messages: &mut [u8],
) -> AnsweredLines
    requires { AllAnswerable known n terms.old orders.old messages.old }
    ensures answers_lines { AnswersLines n bytes.now terms.old orders.old room.old result
        terms.new orders.new room.new }
    ensures within { Within bytes.now room.old result }
{
    let mut state = n;
    let mut at = 0;
    let mut to = 0;
    // (Each turn takes a line, and stops where none is whole or the room may not hold its answer: two counts, and a `for` over neither.)
    loop {
        let end = text::line_end(bytes, at);
        if (end == at) | (room.len() - to < Answered::LONGEST) {
            return AnsweredLines {
                state,
                consumed: at,
                bytes: to,
            };
        }
        let one = answer_known(
            state,
            known,
            &bytes[at..end],
            terms,
            orders,
            &mut room[to..],
            messages,
        );
        state = one.state;
        at = end;
        to += one.bytes;
    }
}

// Answers the whole lines of some bytes, for as long as the room that is left holds the longest answer. The record is looked at once: a good one stays good.
pub fn answer_lines(
    n: Record,
    bytes: &[u8],
    terms: &mut [u32; Record::LOG],
    orders: &mut [u64; Record::LOG],
    room: &mut [u8],
) -> AnsweredLines
    ensures answers_lines { AnswersLines n bytes.now terms.old orders.old room.old result
        terms.new orders.new room.new }
    ensures within { Within bytes.now room.old result }
{
    let known = changes::is_good(n, &terms[..]);
    let mut messages = [0u8; Answered::MESSAGES];
    answer_each(n, known, bytes, terms, orders, room, &mut messages)
}
