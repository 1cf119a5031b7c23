// Messages and boxes as plain numbers, there and back: what C and Rust hand over.
#![tactic(auto)]

mod boxes;
mod message;

pub use boxes::{box_in, box_range, put_box, read_box};
pub use message::{fields_in, in_range, put_flat, read_fields};
