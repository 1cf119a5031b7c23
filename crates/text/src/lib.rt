// Bytes as lines: where a line ends.
#![tactic(auto)]

ghost use Rattle.std.specs.Prelude.{◌≡◌, ◌==◌, ◌+◌, ◌≤◌, length, drop, position};
ghost use Rattle.std.specs.List.{take_while};
ghost use Rattle.text.specs.Lines.{first_line, has_none};

// No line feed among sixteen bytes. It looks at all of them, so the compiler takes them at once.
#[tactic(auto, using(crate::specs::LinesLaws::has_none_more), unfolding(crate::specs::Lines::has_none))]
fn is_plain(bytes: &[u8; 16]) -> bool
    ensures { result ≡ has_none bytes.now }
{
    let mut ok = true;
    for b in bytes {
        ok = ok & (*b != 10);
    }
    ok
}

// How many sixteens there are without a line feed, before the first that has one.
fn plain_front(sixteens: &[[u8; 16]]) -> usize
    ensures { result ≡ length (take_while has_none sixteens.now) }
{
    sixteens.iter().take_while(|s| is_plain(s)).count()
}

// The place of the first line feed, byte by byte.
fn line_feed(bytes: &[u8]) -> Option<usize>
    ensures { result ≡ position (λ b. b == 10) bytes.now }
{
    bytes.iter().position(|b| *b == 10)
}

// The place behind the first line feed from a place on, or that place where there is none. (A number and no Option, as in
// the definition: `first_line` is 0 where there is none, and all that is proved of lines counts on from it.)
pub fn line_end(bytes: &[u8], at: usize) -> usize
    requires { at ≤ length bytes.now }
    ensures { result ≡ at + first_line (drop at bytes.now) }
{
    let rest = &bytes[at..];
    let (sixteens, _) = rest.as_chunks::<16>();
    let plain = 16 * plain_front(sixteens);
    match line_feed(&rest[plain..]) {
        Some(more) => at + plain + more + 1,
        None => at,
    }
}
