// A box on lines of text: 01's small program but for its reading and writing.
// (The log is lent as C lends it, terms and orders apart: of a struct of two `&mut` each contract would have to say that both are still the ones lent.
// So are the two rooms. What callers have shown is required by name, as `Ready`: a type that holds the fact would ask more of them.)
#![tactic(auto)]

mod blocks;
mod lines;

pub use blocks::answer_lines;
pub use lines::{answer, begin};
use record::Record;

// The first line's answer: the box's record, where one was started, and how many bytes are to be printed.
#[derive(Clone, Copy)]
pub struct Begun {
    pub state: Option<Record>,
    pub bytes: usize,
}

// A later line's answer: the next record, and how many bytes are to be printed.
#[derive(Clone, Copy)]
pub struct Answered {
    pub state: Record,
    pub bytes: usize,
}

impl Answered {
    // The longest answer: a journal line of four entries, 119 bytes, and the longest messages, 905 bytes in all.
    pub const LONGEST: usize = 23 + 24 * Record::ENTRIES + Answered::MESSAGES;

    // The longest messages: six appends of four entries, 131 bytes each. More room for them changes nothing that anyone sees.
    pub const MESSAGES: usize = (Record::BOXES - 1) * (35 + 24 * Record::ENTRIES);
}

// What was made of a block of lines: the next box, how many bytes of whole lines were consumed, and how many are to be printed.
#[derive(Clone, Copy)]
pub struct AnsweredLines {
    pub state: Record,
    pub consumed: usize,
    pub bytes: usize,
}
