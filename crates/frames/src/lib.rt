// 01's frames: the fields of a message, its length, and the rules that it obeys. Reading is in `frame_reader`, writing in `frame_writer`.
#![tactic(auto)]

mod frame_rules;
mod lengths;
mod refusal;

pub use frame_rules::{in_order, is_box, is_frame, obeys};
pub use lengths::{size, text_size};
pub use refusal::Refusal;

// An entry of a log: the term it was made in and the order, its 8 bytes as one number, the first byte highest.
#[derive(Clone, Copy)]
pub struct Entry {
    pub term: u32,
    pub order: u64,
}

// The fields of a message of any of the four kinds. What a kind does not have is 0:
// index is the last, previous or named index; prior the last or previous term.
// Kind and yes stay numbers: `frame_writer::write` answers `NotAFrame` for any fields whatever, and C may hand over any number. The entries
// have four places, as many as there can be, since nothing is allocated.
#[derive(Clone, Copy)]
pub struct Fields {
    pub kind: u8,
    pub from: u8,
    pub to: u8,
    pub term: u32,
    pub index: u16,
    pub prior: u32,
    pub commit: u16,
    pub reply: u8,
    pub count: u8,
    pub entries: [Entry; Fields::ENTRIES],
}

impl Entry {
    // What stands where there is no entry.
    pub const NONE: Entry = Entry { term: 0, order: 0 };
}

impl Fields {
    // What each kind's own fields are put into.
    pub const NONE: Fields = Fields {
        kind: 0,
        from: 0,
        to: 0,
        term: 0,
        index: 0,
        prior: 0,
        commit: 0,
        reply: 0,
        count: 0,
        entries: [Entry::NONE; Fields::ENTRIES],
    };

    // 01's limits: boxes 1 to 7, a log of 256 entries, 4 entries a frame.
    pub const BOXES: u8 = 7;

    // A mask has a bit for each of them and no other.
    pub const MASKS: u8 = 1 << Fields::BOXES;

    pub const LOG: u16 = 256;

    pub const ENTRIES: usize = 4;

    // Kinds, as patterns for a choice by the number.
    pub const VOTE_REQUEST: u8 = 1;

    pub const VOTE_ANSWER: u8 = 2;

    pub const APPEND: u8 = 3;

    pub const APPEND_ANSWER: u8 = 4;
}
