// What is printed: a number, a refusal, and a record as text.
#![tactic(auto)]

mod looking;
mod putting;

pub use looking::{asked, show};
pub use putting::{put, put_refusal};
