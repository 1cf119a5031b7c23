// The four kinds of message, on a record that is known to be good: each decides; any bytes are read, judged and finished in `receive`.
// (The log is lent as C lends it, terms and orders apart: of a struct of two `&mut` each contract would have to say that both are still the ones lent.
// So are the two rooms. What callers have shown is required by name, as `Ready`: a type that holds the fact would ask more of them.)
#![tactic(auto)]

mod append;
mod append_answer;
mod deliver;
mod receive;
mod vote_answer;
mod vote_request;

pub use receive::run_bytes;
