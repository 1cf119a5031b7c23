// The journal's head and lines, and what a box sends, written into room that the caller lends.
#![tactic(auto)]

mod appends;
mod journal_lines;
mod others;
mod requests;

pub use appends::{append_size, appends_size, put_append, put_appends};
pub use journal_lines::{put_head, put_line};
pub use requests::{put_requests, requests_size};
