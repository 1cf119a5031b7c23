// An input, the programs' standard input, in large blocks. The bytes of a line that is not whole yet stay at the block's start until the rest has come.
// How much a block holds goes beside it as a number: a slice of what it holds has no room behind it to read into. (`for _ in 0..u64::MAX` is a loop that ends: none here
// may wait for ever. A line's end is 0 where there is none, as in `text`.)
#![tactic(auto)]

ghost use Rattle.std.specs.Prelude.{◌+◌, ◌-◌, ◌≤◌, ◌<◌, ◌≡◌, IfSome, length, take, drop};
ghost use Rattle.digits.specs.Room.{over};
ghost use Rattle.text.specs.Lines.{first_line};
ghost use Rattle.reader.specs.Blocks.{shortened};

use std::io::Read;

// Reads what there is behind what the block holds, and answers what it holds then: the same as before where the input has ended or a read fails, or where the block is full.
pub fn more<R: Read>(input: &mut R, block: &mut [u8], held: usize) -> usize
    requires { held ≤ length block.old }
    ensures lower_bound { held ≤ result }
    ensures upper_bound { result ≤ length block.old }
{
    held + input.read(&mut block[held..]).unwrap_or(0)
}

// Moves what the block holds from a place on to its start, and answers how much that is.
pub fn keep(block: &mut [u8], from: usize, held: usize) -> usize
    requires from_le_held { from ≤ held }
    requires held_in_bounds { held ≤ length block.old }
    ensures value { result ≡ held - from }
    ensures block_after { block.new ≡ over block.old 0 (take (held - from) (drop from block.old)) }
{
    block.copy_within(from..held, 0);
    held - from
}

// A block that is full with no line feed in it: its line is too long for any meaning, whatever comes. So only its first bytes stay, more than any line has.
pub fn shorten(block: &[u8], held: usize) -> usize
    ensures upper_bound { result ≤ held }
    ensures value { result ≡ shortened (length block.now) held }
{
    if held < block.len() {
        return held;
    }
    if held < 1024 {
        return held;
    }
    1024
}

// A line at the block's start: where it ends, and how many bytes the block holds.
#[derive(Drop)]
pub struct Line {
    pub end: usize,
    pub held: usize,
}

// The line at the block's start, read on until it is whole; none where the input ended before that. (Which bytes a read brings no contract can say: that it reads on, and when
// it ends, is tested. So of the block nothing is said where there is none.)
pub fn whole_line<R: Read>(input: &mut R, block: &mut [u8], filled: usize) -> Option<Line>
    requires { filled ≤ length block.old }
    ensures not_empty { IfSome result (λ line. 0 < line.end) }
    ensures end_le_held { IfSome result (λ line. line.end ≤ line.held) }
    ensures held_in_bounds { IfSome result (λ line. line.held ≤ length block.old) }
    ensures end_value { IfSome result (λ line. line.end ≡ first_line (take line.held block.new)) }
{
    let mut held = filled;
    for _ in 0..u64::MAX {
        let end = text::line_end(&block[..held], 0);
        if end != 0 {
            return Some(Line { end, held });
        }
        let kept = shorten(block, held);
        held = more(input, block, kept);
        if held == kept {
            break;
        }
    }
    None
}
