// The rules of 01 that need a few numbers or the lent log alone, each one small function: the crates above put them together.
#![tactic(auto)]

mod answers;
mod entries;
mod mask;
mod record_rules;
mod votes;

pub use answers::{commit_after, commit_at, match_after, next_heard};
pub use entries::{cuts_committed, lacks, search, store, term_at};
pub use mask::{bit, holds, is_majority, is_other};
pub use record_rules::{are_votes, in_order, is_membership, is_progress, is_role, is_vote};
pub use votes::is_granted;
