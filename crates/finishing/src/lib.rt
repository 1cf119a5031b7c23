// One way to finish a step: the room, the new entries, then the journal line and the messages. Until both fit nothing is touched.
// (The log is lent as C lends it, terms and orders apart: of a struct of two `&mut` each contract would have to say that both are still the ones lent.
// So are the two rooms. What callers have shown is required by name, as `Ready`: a type that holds the fact would ask more of them.)
#![tactic(auto)]

mod adding;
mod bytes;
mod measuring;
mod plain;

pub use adding::{finish_adding, finish_one};
pub use plain::finish;
