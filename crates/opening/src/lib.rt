// A box's journal, opened: whole at once, or line by line for one that is longer than memory.
// (The log is lent as C lends it, terms and orders apart: of a struct of two `&mut` each contract would have to say that both are still the ones lent.
// So are the two rooms. What callers have shown is required by name, as `Ready`: a type that holds the fact would ask more of them.)
#![tactic(auto)]

ghost use Rattle.std.specs.Prelude.{◌≡◌, Err};
ghost use Rattle.frames.specs.Refusal.{number};
ghost use Rattle.opening.specs.Calls.{told_open};

mod blocks;
mod lines;
mod whole;

pub use blocks::{replay, replay_head, replay_lines};
use frames::{Entry, Fields, Refusal};
pub use lines::is_head_shaped;
use record::Record;
pub use whole::open;

// What a journal line tells: "01, 10, box, term 4, vote 1, kept 2, count 1, entries". The count says how many of the array are entries, as in a frame's
// `Fields`: the memory is fixed.
#[derive(Clone, Copy)]
pub struct LineFields {
    pub who: u8,
    pub term: u32,
    pub vote: u8,
    pub kept: u16,
    pub count: u8,
    pub entries: [Entry; Fields::ENTRIES],
}

// What opening finds: the record, and the bytes up to and with the last line feed.
#[derive(Clone, Copy)]
pub struct Opened {
    pub state: Record,
    pub bytes: usize,
}

// Why a journal does not open, and "opening returns no record".
#[derive(Clone, Copy, PartialEq, Eq)]
pub enum Unopened {
    // "no whole line, or the first is no proper head"
    NoHead,
    // "a whole line after the head breaks a rule; the first such line's number, the head being 1"
    BadLine { line: usize },
}

// 01's refusal.
impl From<Unopened> for Refusal {
    ghost from_gives = { λ why r. number r ≡ (told_open (Err why)).refusal };

    fn from(why: Unopened) -> Refusal {
        match why {
            Unopened::NoHead => Refusal::NoHead,
            Unopened::BadLine { .. } => Refusal::BadLine,
        }
    }
}

// What was made of a block of lines: the record, and how many bytes and lines were replayed. What was replayed counts also where the line
// behind it breaks a rule, so the answer is no `Result`: its end is one, `Ok` where no whole line is left.
#[derive(Clone, Copy)]
pub struct Block {
    pub end: Result<(), Refusal>,
    pub state: Record,
    pub bytes: usize,
    pub lines: usize,
}
