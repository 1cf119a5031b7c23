// Before anything is written: the bytes of line and messages, and whether they fit.
ghost use Rattle.std.specs.Prelude.{◌≡◌, ◌≤◌};
ghost use Rattle.record.specs.Deciding.{Aimed};
ghost use Rattle.record.specs.Sizes.{is_silent, line_size, sent_size, roomy, measured, Measurable};

use frames::Refusal;
use record::{Decision, Record, Send, Sizes};
use writing::{append_size, appends_size, requests_size};

// "for each step that changes the stored part and no other": neither term, vote nor log changes.
fn is_silent(n: Record, d: Decision) -> bool
    ensures { result ≡ is_silent n d }
{
    let next = d.next;
    (n.term == next.term) & (n.vote == next.vote) & (d.kept == n.last) & (d.kept == next.last)
}

// The bytes of the line.
fn line_size(n: Record, d: Decision) -> usize
    requires { d.kept ≤ d.next.last }
    ensures { result ≡ line_size n d }
{
    if is_silent(n, d) {
        return 0;
    }
    let next = d.next;
    23 + 24 * (next.last - d.kept) as usize
}

// The bytes of the messages.
fn sent_size(send: Send, next: Record) -> usize
    requires { Aimed send next }
    ensures { result ≡ sent_size send next }
{
    match send {
        Send::Nothing => 0,
        Send::Requests => requests_size(next),
        Send::Appends => appends_size(next),
        Send::Append { to } => append_size(next, to),
        Send::VoteAnswer { .. } => 19,
        Send::AppendAnswer { .. } => 23,
    }
}

// "longer than the room left", each judged by itself
fn fits(line: usize, journal: usize, sent: usize, messages: usize) -> bool
    ensures { result ≡ roomy line journal sent messages }
{
    (line <= journal) & (sent <= messages)
}

// What is known before anything is written: how long line and messages are, or 5 where they do not fit.
pub fn measured(n: Record, d: Decision, journal: usize, messages: usize) -> Result<Sizes, Refusal>
    requires { Measurable d }
    ensures { result ≡ measured n d journal messages }
{
    let next = d.next;
    let send = d.send;
    let line = line_size(n, d);
    let sent = sent_size(send, next);
    if !fits(line, journal, sent, messages) {
        return Err(Refusal::NoRoom);
    }
    Ok(Sizes { line, sent })
}
