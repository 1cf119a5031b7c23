// The line and the messages as bytes, from the lent log, which is the next record's by then.
ghost use Rattle.std.specs.Prelude.{◌≡◌};
ghost use Rattle.digits.specs.Room.{over};
ghost use Rattle.raft.specs.Sends.{texts};
ghost use Rattle.record.specs.declared.Decision.{Decision};
ghost use Rattle.record.specs.declared.Record.{Record};
ghost use Rattle.record.specs.Calls.{state_of};
ghost use Rattle.record.specs.Deciding.{messages_of};
ghost use Rattle.record.specs.Sizes.{line_bytes, line_size, MayFit, MessagesFit};

use record::{Decision, Record, Send};
use rules::term_at;
use writing::{put_append, put_appends, put_requests};

// The step's line, where it has one. The lent log is the next record's.
pub fn put_line(
    journal: &mut [u8],
    line: usize,
    next: Record,
    kept: u16,
    terms: &[u32],
    orders: &[u64],
)
    requires { MayFit line next kept terms.now orders.now journal.old }
    ensures { (n : Record) (d : Decision) → d.next ≡ next → d.kept ≡ kept → line ≡ line_size n d
        → journal.new ≡ over journal.old 0 (line_bytes n d terms.now orders.now) }
{
    if line == 0 {
        return;
    }
    writing::put_line(journal, next, kept, terms, orders);
}

// The step's messages. The lent log is the next record's.
pub fn put_messages(messages: &mut [u8], send: Send, next: Record, terms: &[u32], orders: &[u64])
    requires { MessagesFit send next terms.now orders.now messages.old }
    ensures { messages.new ≡ over messages.old 0
        (texts (messages_of send (state_of next terms.now orders.now))) }
{
    match send {
        Send::Nothing => {}
        Send::Requests => put_requests(messages, next, term_at(terms, next.last)),
        Send::Appends => put_appends(messages, next, terms, orders),
        Send::Append { to } => put_append(messages, next, terms, orders, to),
        Send::VoteAnswer { to, reply } => {
            frame_writer::put_vote_answer(messages, next.me, to, next.term, reply);
        }
        Send::AppendAnswer { to, reply, index } => {
            frame_writer::put_append_answer(messages, next.me, to, next.term, reply, index);
        }
    }
}
