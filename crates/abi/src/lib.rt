// The library's functions for C and Rust, on numbers and byte slices alone.
// A message goes as 17 numbers, a box as 22: `flat` says which. The log goes as two arrays, terms and orders. Four events are four functions: C calls each by its name.
#![tactic(auto)]

mod boxes;
mod journals;
mod orders;

ghost use Rattle.abi.specs.Frames.{Reads, Writes};

pub use boxes::{box_handed_out, box_order, box_prompt, box_receive, box_start, box_timeout};
use flat::{put_flat, read_fields};
use frames::Refusal;
pub use journals::{journal_open, journal_replay};
pub use orders::{order_from_bytes, order_to_bytes};

// frame_reader::read: 0 and the 17 numbers, or 1 and the numbers as they were.
#[unsafe(no_mangle)]
pub extern "C" fn frame_read(text: &[u8], numbers: &mut [u64; 17]) -> u8
    ensures { Reads text.now numbers.old result numbers.new }
{
    match frame_reader::read(text) {
        Ok(f) => {
            put_flat(numbers, f);
            0
        }
        Err(refusal) => refusal.number(),
    }
}

// frame_writer::write of the fields that the numbers are: 0, 1 or 5.
#[unsafe(no_mangle)]
pub extern "C" fn frame_write(numbers: &[u64; 17], room: &mut [u8]) -> u8
    ensures { Writes numbers.now room.old result room.new }
{
    let Some(f) = read_fields(numbers) else {
        return Refusal::NotAFrame.number();
    };
    match frame_writer::write(room, f) {
        Ok(_) => 0,
        Err(refusal) => refusal.number(),
    }
}
