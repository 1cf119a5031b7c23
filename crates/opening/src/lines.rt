// A journal's lines: their form, their fields, and the rules that one keeps behind the record so far. Each form is a definition, which its proof opens.
ghost use Rattle.std.specs.Prelude.{◌≡◌, cond, List, ℕ, ◌≤◌, Some, None};
ghost use Rattle.frames.specs.Limits.{entry_limit};
ghost use Rattle.record.specs.Calls.{state_of};
ghost use Rattle.journal.specs.Lines.{mask_in, head_shaped, line_shaped, line_in};
ghost use Rattle.journal.specs.Opening.{is_head, allows};
ghost use Rattle.opening.specs.Calls.{Readable, Lookable, line_of, allows_numbers};

use crate::LineFields;
use frames::{Fields, in_order};
use record::Record;
use rules::{is_vote, term_at};

// The form of a head: one line, version 01, kind 11, 4 bytes long.
#[tactic(auto, unfolding(journal::specs::Lines::head_shaped, frames::specs::Reading::is_line, frames::specs::Reading::version, frames::specs::Reading::kind))]
pub fn is_head_shaped(s: &[u8]) -> bool
    ensures { result ≡ head_shaped s.now }
{
    if s.len() != 9 {
        return false;
    }
    if !frame_reader::is_line(s) {
        return false;
    }
    (digits::get::<u8>(s, 0) == 1) & (digits::get::<u8>(s, 2) == Record::HEAD)
}

// The mask of a head for the box asked for, a membership that holds it.
#[tactic(auto, unfolding(journal::specs::Opening::is_head, journal::specs::Lines::head_shaped, journal::specs::Lines::box_in, journal::specs::Lines::mask_in, frames::specs::Reading::is_line))]
pub fn head_mask(me: u8, s: &[u8]) -> Option<u8>
    ensures { result ≡ cond (is_head me s.now) (Some (mask_in s.now)) None }
{
    if !is_head_shaped(s) {
        return None;
    }
    let mask: u8 = digits::get(s, 6);
    if (digits::get::<u8>(s, 4) == me) & rules::is_membership(me, mask) {
        return Some(mask);
    }
    None
}

// The form of a line: one line, version 01, kind 10, as long as its count tells.
#[tactic(auto, unfolding(journal::specs::Lines::line_shaped, journal::specs::Lines::count_in, frames::specs::Reading::is_line, frames::specs::Reading::version, frames::specs::Reading::kind))]
pub fn is_shaped(s: &[u8]) -> bool
    ensures { result ≡ line_shaped s.now }
{
    if s.len() < 23 {
        return false;
    }
    if !frame_reader::is_line(s) {
        return false;
    }
    (digits::get::<u8>(s, 0) == 1)
        & (digits::get::<u8>(s, 2) == Record::LINE)
        & (s.len() == 23 + 24 * digits::get::<u8>(s, 20) as usize)
}

// The fields of a line, each from its place.
#[tactic(auto, unfolding(journal::specs::Lines::line_shaped, journal::specs::Lines::count_in, frames::specs::Reading::is_line))]
pub fn line_fields(s: &[u8]) -> LineFields
    requires { Readable s.now }
    ensures result_value { line_of result ≡ line_in s.now }
    ensures count_le_entry_limit { result.count ≤ entry_limit }
{
    let count: u8 = digits::get(s, 20);
    let entries = frame_reader::entries(s, 22, count);
    LineFields {
        who: digits::get(s, 4),
        term: digits::get(s, 6),
        vote: digits::get(s, 14),
        kept: digits::get(s, 16),
        count,
        entries,
    }
}

// The rules but the last, which look at numbers alone.
fn allows_numbers(n: Record, l: LineFields) -> bool
    ensures { result ≡ allows_numbers n l }
{
    (l.who == n.me)
        & ((1 <= l.term) & (n.term <= l.term))
        & is_vote(n.members, l.vote)
        & ((n.term < l.term) | (n.vote == 0) | (l.vote == n.vote))
        & (l.kept <= n.last)
        & ((l.kept as u32 + l.count as u32 <= Fields::LOG as u32)
            & (l.count as usize <= Fields::ENTRIES))
}

// Every rule of a line behind the record so far.
pub fn is_allowed(n: Record, l: LineFields, terms: &[u32]) -> bool
    requires { Lookable l terms.now }
    ensures { (orders : List ℕ) → result ≡ allows (state_of n terms.now orders) (line_of l) }
{
    if !allows_numbers(n, l) {
        return false;
    }
    in_order(
        &l.entries[..l.count as usize],
        term_at(terms, l.kept),
        l.term,
    )
}
