// 01's small program: a box on lines of text. It reads, has each line answered by the library, and prints.
// (Terms and orders go apart, as the library lends them. `for _ in 0..u64::MAX` is a loop that ends: none here may wait for ever.)
#![tactic(auto)]

ghost use Rattle.std.specs.Prelude.{◌≤◌, length, IfOk};

use reader::Line;
use record::Record;
use std::io;
use std::io::{Read, Write};

// What came of the lines of a block: the next box, and the bytes consumed.
#[derive(Drop)]
struct Block {
    state: Record,
    consumed: usize,
}

// Answers the whole lines of a block, and prints the answers, until no line is taken. A failed write ends it.
fn answer_all<W: Write>(
    stdout: &mut W,
    n: Record,
    bytes: &[u8],
    terms: &mut [u32; Record::LOG],
    orders: &mut [u64; Record::LOG],
    output: &mut [u8],
) -> io::Result<Block>
    ensures { IfOk result (λ block. block.consumed ≤ length bytes.now) }
{
    let mut state = n;
    let mut at = 0;
    // (As many turns as the output's room makes of a block: no `for` counts them.)
    loop {
        let done = console::answer_lines(state, &bytes[at..], terms, orders, output);
        if done.consumed == 0 {
            return Ok(Block {
                state,
                consumed: at,
            });
        }
        state = done.state;
        at += done.consumed;
        stdout.write_all(&output[..done.bytes])?;
    }
}

// The lines behind the first: those in the block already, then what is read.
fn later_lines<R: Read, W: Write>(
    stdin: &mut R,
    stdout: &mut W,
    n: Record,
    input: &mut [u8],
    first: Line,
    output: &mut [u8],
) -> io::Result<()>
    requires end_le_held { first.end ≤ first.held }
    requires held_in_bounds { first.held ≤ length input.old }
{
    let mut terms = [0u32; Record::LOG];
    let mut orders = [0u64; Record::LOG];
    let mut state = n;
    let mut at = first.end;
    let mut held = first.held;
    for _ in 0..u64::MAX {
        let block = answer_all(
            stdout,
            state,
            &input[at..held],
            &mut terms,
            &mut orders,
            output,
        )?;
        state = block.state;
        let left = reader::keep(input, at + block.consumed, held);
        let kept = reader::shorten(input, left);
        held = reader::more(stdin, input, kept);
        if held == kept {
            break;
        }
        at = 0;
    }
    Ok(())
}

fn run<R: Read, W: Write>(
    stdin: &mut R,
    stdout: &mut W,
    input: &mut [u8],
    output: &mut [u8],
) -> io::Result<()> {
    let Some(first) = reader::whole_line(stdin, input, 0) else {
        return Ok(());
    };
    let Some(begun) = console::begin(&input[..first.end], output) else {
        return Ok(());
    };
    stdout.write_all(&output[..begun.bytes])?;
    let Some(state) = begun.state else {
        return Ok(());
    };
    later_lines(stdin, stdout, state, input, first, output)
}

// What cannot be written ends the run, and nothing tells of it.
fn main(rt: HostRuntime) {
    let mut input = [0u8; 65536];
    let mut output = [0u8; 65536];
    let _ = run(&mut rt.stdin(), &mut rt.stdout(), &mut input, &mut output);
}
