// 01's record as structs, its constructor, what an event decides of it, and what a step answers: `specs/` says what they mean.
#![tactic(auto)]

ghost use Rattle.std.specs.Prelude.{◌≡◌};
ghost use Rattle.raft.specs.Record.{zeros, fresh};
ghost use Rattle.record.specs.Calls.{record_of};

use frames::Fields;

// What a leader alone has: next and match for each box, box i's at place i-1. (Two lists, as in 01's record and C's numbers: "next and then match of the seven boxes".)
#[derive(Clone, Copy)]
pub struct Lead {
    pub next: [u16; Record::BOXES],
    pub matched: [u16; Record::BOXES],
}

impl Lead {
    // "Next and match are 0 unless leader": what everybody else has.
    pub fn none() -> Lead
        ensures { result ≡ record { next = zeros; matched = zeros } }
    {
        let none = [0u16; Record::BOXES];
        Lead {
            next: none,
            matched: none,
        }
    }
}

// The box's record, but for its log, which the caller lends: `last` counts its entries. What is read by itself comes first and what is only
// copied last, here and in the answers: a copy that cuts elsewhere than the one before it has to wait for it (docs/BENCH.md). A role is a number: a record is whatever
// the caller hands over, and one whose role is none of the three is answered 12 (`Calls` of `Node`'s methods), so an enum would ask more. So it is with the vote: 0 is nobody.
#[derive(Clone, Copy)]
pub struct Record {
    pub term: u32,
    pub last: u16,
    pub commit: u16,
    pub vote: u8,
    pub role: u8,
    pub me: u8,
    pub members: u8,
    pub votes: u8,
    pub lead: Lead,
}

impl Record {
    // 01's limits, as lengths of arrays.
    pub const BOXES: usize = Fields::BOXES as usize;

    pub const LOG: usize = Fields::LOG as usize;

    pub const ENTRIES: usize = Fields::ENTRIES;

    // The last term there is.
    pub const LAST_TERM: u32 = 4294967295;

    // T-01: "an order of eight zero bytes", a new leader's.
    pub const BLANK: u64 = 0;

    // A journal's kinds: "head 01, 11", and of a line "01, 10".
    pub const HEAD: u8 = 0x11;

    pub const LINE: u8 = 0x10;

    // Roles.
    pub const FOLLOWER: u8 = 0;

    pub const CANDIDATE: u8 = 1;

    pub const LEADER: u8 = 2;

    // "A fresh box stands in term 0, has voted for nobody, has an empty log and is a follower." Nowhere else is a record made from nothing.
    pub fn fresh(me: u8, members: u8) -> Record
        ensures { result ≡ record_of (fresh me members) }
    {
        let lead = Lead::none();
        Record {
            me,
            members,
            term: 0,
            vote: 0,
            last: 0,
            commit: 0,
            role: Record::FOLLOWER,
            votes: 0,
            lead,
        }
    }
}

// What a step sends. An answer's reply is 1, yes, or 0, no: its number in the frame. (`changes::step` and `finishing` take any: a `bool` would ask more.)
#[derive(Clone, Copy)]
pub enum Send {
    Nothing,
    Requests,
    Appends,
    Append { to: u8 },
    VoteAnswer { to: u8, reply: u8 },
    AppendAnswer { to: u8, reply: u8, index: u16 },
}

// What an event decides, before anything is written: the next record, how many entries of the log it keeps, which of the entries that were offered
// come behind them (from first up to count), and what is sent.
#[derive(Clone, Copy)]
pub struct Decision {
    pub next: Record,
    pub kept: u16,
    pub first: u8,
    pub count: u8,
    pub send: Send,
}

// How many bytes a step's journal line and its messages take.
#[derive(Clone, Copy)]
pub struct Sizes {
    pub line: usize,
    pub sent: usize,
}

// A step that is done: the next record, or the next box around it, and how many bytes of journal line and messages were written.
#[derive(Clone, Copy)]
pub struct Step<B> {
    pub next: B,
    pub line: usize,
    pub sent: usize,
}

// A start that is done: the fresh record, or the box around it, and how many bytes of head were written.
#[derive(Clone, Copy)]
pub struct Started<B> {
    pub fresh: B,
    pub bytes: usize,
}
