// Reads cases from standard input, each ended by `;`, hands each to the frame reader, and prints what it got: `n1`, or the
// fields in decimal (entries as their 24 digits), and on the next line the frame that the writer makes of them.
// What cannot be written is passed over, each piece by itself: whoever compares the output sees it.
#![tactic(auto)]

ghost use Rattle.std.specs.Prelude.{◌≤◌, length};

use frames::{Entry, Fields, Refusal};
use std::io::{Read, Write};

// (`write!` of several pieces would pass over all that come behind the first that cannot be written.)
fn piece<W: Write>(out: &mut W, text: &[u8]) {
    let _ = out.write_all(text);
}

fn number<W: Write>(out: &mut W, n: u64) {
    let _ = write!(out, "{n}");
}

// Each number behind a blank.
fn numbers<W: Write>(out: &mut W, all: &[u64]) {
    for n in all {
        piece(out, b" ");
        number(out, *n);
    }
}

// The entry's 24 digits, one piece.
fn entry<W: Write>(out: &mut W, e: &Entry) {
    let term = e.term;
    let order = e.order;
    piece(out, b" ");
    let _ = write!(out, "{term:08x}{order:016x}");
}

fn fields<W: Write>(out: &mut W, f: Fields) {
    let Fields {
        kind,
        from,
        to,
        term,
        index,
        prior,
        commit,
        reply,
        count,
        entries,
    } = f;
    number(out, kind as u64);
    numbers(out, &[from as u64, to as u64, term as u64]);
    match kind {
        Fields::VOTE_REQUEST => numbers(out, &[index as u64, prior as u64]),
        Fields::VOTE_ANSWER => numbers(out, &[reply as u64]),
        Fields::APPEND => {
            numbers(
                out,
                &[index as u64, prior as u64, commit as u64, count as u64],
            );
            for e in entries.iter().take(count as usize) {
                entry(out, e);
            }
        }
        _ => numbers(out, &[reply as u64, index as u64]),
    }
    piece(out, b"\n");
}

fn refused<W: Write>(out: &mut W, refusal: Refusal) {
    piece(out, b"n");
    number(out, refusal.number() as u64);
    piece(out, b"\n");
}

// What the writer makes of the fields.
fn frame<W: Write>(out: &mut W, f: Fields) {
    let mut room = [0u8; 256];
    match frame_writer::write(&mut room, f) {
        Ok(bytes) => piece(out, &room[..bytes]),
        Err(refusal) => refused(out, refusal),
    }
}

fn show<W: Write>(out: &mut W, case: &[u8]) {
    match frame_reader::read(case) {
        Ok(f) => {
            fields(out, f);
            frame(out, f);
        }
        Err(refusal) => refused(out, refusal),
    }
}

fn show_all<W: Write>(out: &mut W, s: &[u8]) {
    for ended in s.split_inclusive(|c| *c == b';') {
        if let Some(case) = ended.strip_suffix(b";") {
            show(out, case);
        }
    }
}

// Reads until the room is full, the input has ended or a read fails, and answers how much stands at its start.
fn read_full<R: Read>(input: &mut R, room: &mut [u8]) -> usize
    ensures { result ≤ length room.old }
{
    let mut filled = 0;
    for _ in 0..room.len() {
        let got = input.read(&mut room[filled..]).unwrap_or(0);
        filled += got;
        if got == 0 || filled == room.len() {
            break;
        }
    }
    filled
}

fn main(rt: HostRuntime) {
    let mut space = [0u8; 65536];
    let n = read_full(&mut rt.stdin(), &mut space);
    show_all(&mut rt.stdout(), &space[..n]);
}
