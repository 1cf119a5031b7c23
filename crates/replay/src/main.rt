// A look into a journal: the first line asks for a box, the rest is its journal. It reads, has the lines replayed by the library, and prints.
// (Terms and orders go apart, as the library lends them. `for _ in 0..u64::MAX` is a loop that ends: none here may wait for ever.)
#![tactic(auto)]

ghost use Rattle.std.specs.Prelude.{◌≤◌, length, IfOk};
ghost use Rattle.frames.specs.Limits.{log_limit};
ghost use Rattle.printing.specs.Putting.{shown_most};
ghost use Rattle.replay.specs.Required.{Continues, Showable};

use opening::{Opened, Unopened};
use reader::Line;
use record::Record;
use std::io;
use std::io::{Read, Write};

// The lines behind the head: those in the block already, then what is read. "the first such line's number, the head being 1". (The sums wrap: no contract
// says that what is read ends before they do.)
fn later_lines<R: Read>(
    stdin: &mut R,
    n: Record,
    input: &mut [u8],
    head: Line,
    terms: &mut [u32; Record::LOG],
    orders: &mut [u64; Record::LOG],
) -> Result<Opened, Unopened>
    requires end_le_held { head.end ≤ head.held }
    requires continues { Continues n input.old head.held }
    ensures { IfOk result (λ opened. opened.state.last ≤ log_limit) }
{
    let mut state = n;
    let mut at = head.end;
    let mut held = head.held;
    let mut bytes = head.end;
    let mut line: usize = 2;
    for _ in 0..u64::MAX {
        let block = opening::replay_lines(state, &input[at..held], terms, orders);
        state = block.state;
        bytes = bytes.wrapping_add(block.bytes);
        line = line.wrapping_add(block.lines);
        let Ok(()) = block.end else {
            return Err(Unopened::BadLine { line });
        };
        let left = reader::keep(input, at + block.bytes, held);
        let kept = reader::shorten(input, left);
        held = reader::more(stdin, input, kept);
        if held == kept {
            break;
        }
        at = 0;
    }
    Ok(Opened { state, bytes })
}

// The journal of the box that the first line asks for.
fn open<R: Read>(
    stdin: &mut R,
    input: &mut [u8],
    terms: &mut [u32; Record::LOG],
    orders: &mut [u64; Record::LOG],
) -> Result<Opened, Unopened>
    ensures { IfOk result (λ opened. opened.state.last ≤ log_limit) }
{
    let first = reader::whole_line(stdin, input, 0).ok_or(Unopened::NoHead)?;
    let me = printing::asked(&input[..first.end]).ok_or(Unopened::NoHead)?;
    let left = reader::keep(input, first.end, first.held);
    let head = reader::whole_line(stdin, input, left).ok_or(Unopened::NoHead)?;
    let Ok(state) = opening::replay_head(me, &input[..head.end]) else {
        return Err(Unopened::NoHead);
    };
    later_lines(stdin, state, input, head, terms, orders)
}

// Prints why there is no record: the refusal's number, and that of a bad line. (The numbers stand in the text: as `{number}` each would be a write of its own.)
fn refuse<W: Write>(stdout: &mut W, why: Unopened) -> io::Result<()> {
    match why {
        Unopened::NoHead => stdout.write_all(b"n11\n"),
        Unopened::BadLine { line } => writeln!(stdout, "n10 {line}"),
    }
}

// Prints the record.
fn show<W: Write>(
    stdout: &mut W,
    opened: Opened,
    terms: &[u32; Record::LOG],
    orders: &[u64; Record::LOG],
    output: &mut [u8],
) -> io::Result<()>
    requires { Showable opened.state output.old }
{
    let state = opened.state;
    let text = printing::show(state, opened.bytes as u64, terms, orders, output);
    stdout.write_all(&output[..text])
}

fn run<R: Read, W: Write>(
    stdin: &mut R,
    stdout: &mut W,
    input: &mut [u8],
    output: &mut [u8],
) -> io::Result<()>
    requires { shown_most ≤ length output.old }
{
    let mut terms = [0u32; Record::LOG];
    let mut orders = [0u64; Record::LOG];
    match open(stdin, input, &mut terms, &mut orders) {
        Ok(opened) => show(stdout, opened, &terms, &orders, output),
        Err(why) => refuse(stdout, why),
    }
}

// What cannot be written is passed over: nothing is read or written behind it.
fn main(rt: HostRuntime) {
    let mut input = [0u8; 65536];
    let mut output = [0u8; 65536];
    let _ = run(&mut rt.stdin(), &mut rt.stdout(), &mut input, &mut output);
}
