// What a leader does beyond a role's change: its commit, an entry more, winning, and what an append answer tells.
// (The log is lent as C lends it, terms and orders apart: of a struct of two `&mut` each contract would have to say that both are still the ones lent.
// So are the two rooms. What callers have shown is required by name, as `Ready`: a type that holds the fact would ask more of them.)
#![tactic(auto)]

mod commit;
mod entries;
mod progress;
mod winning;

pub use commit::settled;
pub use entries::adding;
pub use progress::heard;
pub use winning::won;
