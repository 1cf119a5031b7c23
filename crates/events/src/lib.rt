// The events that need no message, on a record that is known to be good. Each decides first; `finishing` then writes.
// (The log is lent as C lends it, terms and orders apart: of a struct of two `&mut` each contract would have to say that both are still the ones lent.
// So are the two rooms. What callers have shown is required by name, as `Ready`: a type that holds the fact would ask more of them.)
#![tactic(auto)]

mod order;
mod prompt;
mod starting;
mod timeout;

pub use order::run_order;
pub use prompt::run_prompt;
pub use starting::start;
pub use timeout::run_timeout;
