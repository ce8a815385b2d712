// The readers of a pattern: branch reader, item reader and group reader call each other. Remaining bytes and depth fall.
ghost use Rattle.std.specs.Prelude.{◌≡◌, ◌||◌, ◌+◌, ◌≤◌, length, drop, get_or, eqb};
ghost use Rattle.patterns.specs.Line.{item, branch, group, is_letter, letters_of, parse, most_letters};
ghost use Rattle.compositor.specs.Inner.{Suffixed, Told};

use crate::parts::{Follow, Part, extended, letter_part, or_part, repeated, then_part};

// The byte at e; 0 behind the text.
fn byte_at(s: &[u8], e: usize) -> u8
    ensures { result ≡ get_or s.now e 0 }
{
    s.get(e).copied().unwrap_or(0)
}

// Whether the byte is a letter: a to p.
#[tactic(auto, unfolding(patterns::specs::Line::is_letter))]
pub(crate) fn is_letter(b: u8) -> bool
    ensures { result ≡ is_letter b }
{
    b'a' <= b && b <= b'p'
}

// Whether an item begins at e.
fn starts(s: &[u8], e: usize) -> bool
    ensures { result ≡ (is_letter (get_or s.now e 0) || eqb (get_or s.now e 0) 40) }
{
    let b = byte_at(s, e);
    is_letter(b) || b == b'('
}

// What stands after a letter or a closed group: `*`, `+`, `?` or none of these.
#[tactic(auto, unfolding(crate::specs::Inner::suffix_part, crate::specs::Inner::suffix_table))]
fn suffixed(s: &[u8], p: Part, follow: &mut Follow) -> Part
    ensures { Suffixed (get_or s.now p.at 0) p follow.old follow.new result }
{
    match byte_at(s, p.at) {
        b'*' => repeated(p, p.at + 1, true, follow),
        b'+' => repeated(p, p.at + 1, p.null, follow),
        b'?' => extended(p, p.at + 1, true),
        _ => p,
    }
}

// A letter or a group, and what stands after it.
#[cycle(read_branch_read_group_read_item)]
fn read_item(s: &[u8], at: usize, depth: usize, place: usize, follow: &mut Follow) -> Option<Part>
    requires { place + length (letters_of (drop at s.now)) ≤ most_letters }
    ensures { Told place (parse item s.now at depth) follow.old follow.new result }
{
    let b = byte_at(s, at);
    if is_letter(b) {
        let p = letter_part(at + 1, place);
        return Some(suffixed(s, p, follow));
    }
    if b != b'(' {
        return None;
    }
    if depth == 0 {
        return None;
    }
    let p = read_group(s, at + 1, depth - 1, place, follow)?;
    if byte_at(s, p.at) != b')' {
        return None;
    }
    let q = extended(p, p.at + 1, p.null);
    Some(suffixed(s, q, follow))
}

// One item or more: it calls itself and is no loop, since the meaning joins a first part to the rest from the right.
#[cycle(read_branch_read_group_read_item)]
fn read_branch(s: &[u8], at: usize, depth: usize, place: usize, follow: &mut Follow) -> Option<Part>
    requires { place + length (letters_of (drop at s.now)) ≤ most_letters }
    ensures { Told place (parse branch s.now at depth) follow.old follow.new result }
{
    let p = read_item(s, at, depth, place, follow)?;
    if !starts(s, p.at) {
        return Some(p);
    }
    let q = read_branch(s, p.at, depth, p.place, follow)?;
    Some(then_part(p, q, follow))
}

// One branch or more, parted by bars.
#[cycle(read_branch_read_group_read_item)]
pub(crate) fn read_group(
    s: &[u8],
    at: usize,
    depth: usize,
    place: usize,
    follow: &mut Follow,
) -> Option<Part>
    requires { place + length (letters_of (drop at s.now)) ≤ most_letters }
    ensures { Told place (parse group s.now at depth) follow.old follow.new result }
{
    let p = read_branch(s, at, depth, place, follow)?;
    if byte_at(s, p.at) != b'|' {
        return Some(p);
    }
    let q = read_group(s, p.at + 1, depth, p.place, follow)?;
    Some(or_part(p, q))
}
