// What an event decides that leaves the log alone.
ghost use Rattle.std.specs.Prelude.{◌≡◌};
ghost use Rattle.record.specs.DecidingLaws.{plain};

use record::{Decision, Record, Send};

// The next record and what is sent.
pub fn step(next: Record, send: Send) -> Decision
    ensures { result ≡ plain next send }
{
    Decision {
        next,
        kept: next.last,
        first: 0,
        count: 0,
        send,
    }
}
