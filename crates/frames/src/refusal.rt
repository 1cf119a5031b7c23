// "When the box says no": 01's table of refusals, each with its number.
ghost use Rattle.std.specs.Prelude.{◌≡◌};
ghost use Rattle.frames.specs.Refusal as refusals;

// Why something is refused. Its number is 01's (`number`).
#[derive(Clone, Copy, PartialEq, Eq)]
pub enum Refusal {
    // "the bytes, or fields to be written, are not one frame"
    NotAFrame = 1,
    // "not to this box, from itself, or from a non-member"
    NotForThisBox = 2,
    // "order or prompt, not leader"
    NotLeader = 3,
    // "order, log holds 256"
    LogFull = 4,
    // "the head, journal line or messages are longer than the room left"
    NoRoom = 5,
    // "alarm: append of the box's own term, and it leads"
    SecondLeader = 6,
    // "alarm: an append of no lower term would cut at or below commit"
    CutsCommitted = 7,
    // "alarm: at a leader, an append answer yes of its term names an index past its log"
    PastLog = 8,
    // "timeout at a non-leader in the last term"
    LastTerm = 9,
    // "opening: a whole line after the head breaks a rule"
    BadLine = 10,
    // "opening: no whole line, or the first is no proper head"
    NoHead = 11,
    // "starting: bad box or mask; an event: the record breaks a rule above"
    BadRecord = 12,
    // T-01: an order of eight zero bytes
    BlankOrder = 13,
}

impl Refusal {
    // 01's number.
    pub fn number(self) -> u8
        ensures { result ≡ refusals.number self }
    {
        self as u8
    }
}
