// A line, and what the box answers.
ghost use Rattle.std.specs.Prelude.{◌≡◌, true, ◌≤◌, length, Some, IfSome};
ghost use Rattle.record.specs.Calls.{state_of, Runs, start_told};
ghost use Rattle.console.specs.Session as definition;
ghost use Rattle.console.specs.Calls.{told, told_begun, Starts, Begins, AnswersLine, Known, Answerable};

use crate::{Answered, Begun};
use frames::Refusal;
use printing::{put, put_refusal};
use record::{Record, Started, Step};

// "`t` (timeout), `p` (prompt)": the letter and its line feed.
fn is_letter(letter: u8, s: &[u8]) -> bool
    ensures { result ≡ definition.is_letter letter s.now }
{
    if s.len() != 2 {
        return false;
    }
    (s[0] == letter) & (s[1] == 10)
}

// "`o` with 16 digits (order)"
fn is_order(s: &[u8]) -> bool
    ensures { result ≡ definition.is_order s.now }
{
    if s.len() != 18 {
        return false;
    }
    if s[0] != b'o' {
        return false;
    }
    frame_reader::is_line(&s[1..])
}

// Its order: the 16 digits behind the letter.
fn order_in(s: &[u8]) -> u64
    requires { definition.is_order s.now ≡ true }
    ensures { result ≡ definition.order_in s.now }
{
    digits::get(&s[1..], 0)
}

// What a line comes to, at a record of which it is known whether it is good (looked at once for a block of lines): 12, or the event that it asks for. (No match of the line on
// patterns: its last arm does not tell which test failed, and the definition asks for each.)
fn step(
    n: Record,
    known: bool,
    line: &[u8],
    terms: &mut [u32],
    orders: &mut [u64],
    journal: &mut [u8],
    messages: &mut [u8],
) -> Result<Step<Record>, Refusal>
    requires { Known known n terms.old orders.old }
    ensures { Runs (definition.outcome_of line.now (state_of n terms.old orders.old)) n
        terms.old orders.old journal.old messages.old result
        terms.new orders.new journal.new messages.new }
{
    if !known {
        return Err(Refusal::BadRecord);
    }
    if is_letter(b't', line) {
        return events::run_timeout(n, terms, orders, journal, messages);
    }
    if is_letter(b'p', line) {
        return events::run_prompt(n, &terms[..], &orders[..], journal, messages);
    }
    if is_order(line) {
        return events::run_order(n, order_in(line), terms, orders, journal, messages);
    }
    messages::run_bytes(n, line, terms, orders, journal, messages)
}

// The answer to a line, at the room's start. The messages are written aside, since they stand behind a journal line whose length comes with them.
pub fn answer_known(
    n: Record,
    known: bool,
    line: &[u8],
    terms: &mut [u32],
    orders: &mut [u64],
    room: &mut [u8],
    messages: &mut [u8],
) -> Answered
    requires { Answerable known n terms.old orders.old room.old messages.old }
    ensures answers_line { AnswersLine n line.now terms.old orders.old room.old (told n (Some result))
        terms.new orders.new room.new }
    ensures known { Known known result.state terms.new orders.new }
{
    match step(n, known, line, terms, orders, room, messages) {
        Ok(done) => {
            put(room, done.line, &messages[..done.sent]);
            Answered {
                state: done.next,
                bytes: done.line + done.sent,
            }
        }
        Err(refusal) => {
            let bytes = put_refusal(room, refusal.number());
            Answered { state: n, bytes }
        }
    }
}

// A line with its line feed, at a box: its journal line and messages, or its refusal, at the room's start. None, and nothing done, where the room
// is shorter than the longest answer.
pub fn answer(
    n: Record,
    line: &[u8],
    terms: &mut [u32; Record::LOG],
    orders: &mut [u64; Record::LOG],
    room: &mut [u8],
) -> Option<Answered>
    ensures { AnswersLine n line.now terms.old orders.old room.old (told n result)
        terms.new orders.new room.new }
{
    if room.len() < Answered::LONGEST {
        return None;
    }
    let known = changes::is_good(n, &terms[..]);
    let mut messages = [0u8; Answered::MESSAGES];
    Some(answer_known(n, known, line, terms, orders, room, &mut messages))
}

// Starts the box of a head; a line that has not the form of one starts none.
fn start(line: &[u8], room: &mut [u8]) -> Result<Started<Record>, Refusal>
    ensures { Starts line.now room.old (start_told result) room.new }
{
    if !opening::is_head_shaped(line) {
        return Err(Refusal::BadRecord);
    }
    events::start(digits::get(line, 4), digits::get(line, 6), room)
}

// The first line: it starts the box whose head it is. None, and nothing done, where the room is shorter than the longest answer.
pub fn begin(line: &[u8], room: &mut [u8]) -> Option<Begun>
    ensures begins { Begins line.now room.old (told_begun result) room.new }
    ensures bytes_in_bounds { IfSome result (λ b. b.bytes ≤ length room.old) }
{
    if room.len() < Answered::LONGEST {
        return None;
    }
    match start(line, room) {
        Ok(done) => Some(Begun {
            state: Some(done.fresh),
            bytes: done.bytes,
        }),
        Err(_) => Some(Begun {
            state: None,
            bytes: put_refusal(room, Refusal::BadRecord.number()),
        }),
    }
}
