// What looks at a record, or makes the next one, and writes nothing.
#![tactic(auto)]

mod decisions;
mod good;
mod roles;

pub use decisions::step;
pub use good::is_good;
pub use roles::{following, standing, taken};
