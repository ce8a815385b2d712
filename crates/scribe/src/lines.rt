// The lines of a rule set, put into a buffer, and its whole text.
ghost use Rattle.std.specs.Prelude.{[], ◌∷◌, ◌++◌, ◌≤◌, ◌<◌};
ghost use Rattle.meaning.specs.Bounds.{most_states};
ghost use Rattle.rules.specs.Checks.{rules_in};
ghost use Rattle.text.specs.Numbers.{decimal};
ghost use Rattle.text.specs.Writing.{Wrote};
ghost use Rattle.sheet.specs.Lines.{final, arc, size_text, line_text};
ghost use Rattle.sheet.specs.Sheets.{sheet_text};
ghost use Rattle.scribe.specs.Inner.{listed, state_text, arc_text, row_text, Writable};

use kinds::{State, Value};
use rules::arcs::arc_at;
use rules::{RuleSet, Size};
use text::puts::{put_byte, put_number, put_word};

// Puts a number and the byte that ends its field.
pub(crate) fn put_field(buffer: &mut [u8], at: usize, n: usize, end: u8) -> usize
    ensures { Wrote buffer.old at (decimal n ++ end ∷ []) buffer.new result }
{
    let next = put_number(buffer, at, n);
    put_byte(buffer, next, end)
}

// Puts the size line.
pub(crate) fn put_size(buffer: &mut [u8], at: usize, size: Size) -> usize
    ensures { Wrote buffer.old at (size_text size) buffer.new result }
{
    let a = put_word(buffer, at, b"size\t");
    let b = put_field(buffer, a, size.states, b'\t');
    let c = put_field(buffer, b, size.values, b'\t');
    put_field(buffer, c, usize::from(size.start), b'\n')
}

// Puts a final line.
pub(crate) fn put_final(buffer: &mut [u8], at: usize, q: State) -> usize
    ensures { Wrote buffer.old at (line_text (final q.0)) buffer.new result }
{
    let a = put_word(buffer, at, b"final\t");
    put_field(buffer, a, usize::from(q), b'\n')
}

// Puts an arc line.
pub(crate) fn put_arc(
    buffer: &mut [u8],
    at: usize,
    q: State,
    v: Value,
    target: State,
    cost: u16,
) -> usize
    ensures { Wrote buffer.old at (line_text (arc q.0 v.0 target.0 cost)) buffer.new result }
{
    let a = put_word(buffer, at, b"arc\t");
    let b = put_field(buffer, a, usize::from(q), b'\t');
    let c = put_field(buffer, b, usize::from(v), b'\t');
    let d = put_field(buffer, c, usize::from(target), b'\t');
    put_field(buffer, d, usize::from(cost), b'\n')
}

// Puts the final line of a state, if it is accepting.
pub(crate) fn put_state(buffer: &mut [u8], at: usize, accepting: u64, q: State) -> usize
    requires { q.0 < most_states }
    ensures { Wrote buffer.old at (state_text accepting q.0) buffer.new result }
{
    if (accepting >> q.0) & 1 == 1 {
        return put_final(buffer, at, q);
    }
    at
}

// Puts the final lines.
pub(crate) fn put_finals(buffer: &mut [u8], at: usize, accepting: u64, states: usize) -> usize
    requires { states ≤ most_states }
    ensures { Wrote buffer.old at (listed (state_text accepting) states) buffer.new result }
{
    let mut next = at;
    for q in 0..states {
        next = put_state(buffer, next, accepting, State(q as u8));
    }
    next
}

// Puts the arc line of a state on a value, if there is an arc.
pub(crate) fn put_place(
    buffer: &mut [u8],
    at: usize,
    rules: &RuleSet<'_>,
    q: State,
    v: Value,
) -> usize
    requires { Writable rules.now × (q.0 < most_states) × (v.0 < rules.now.size.values) }
    ensures { Wrote buffer.old at (arc_text (rules_in rules.now).arcs q.0 v.0) buffer.new result }
{
    let i = arc_at(q, v, rules.size.values as u8);
    let target = State(rules.targets[i]);
    if rules.size.states <= usize::from(target) {
        return at;
    }
    put_arc(buffer, at, q, v, target, rules.costs[i])
}

// Puts the arc lines of a state.
pub(crate) fn put_row(buffer: &mut [u8], at: usize, rules: &RuleSet<'_>, q: State) -> usize
    requires { Writable rules.now × (q.0 < most_states) }
    ensures { Wrote buffer.old at (row_text (rules_in rules.now).arcs q.0) buffer.new result }
{
    let mut next = at;
    for v in 0..rules.size.values {
        next = put_place(buffer, next, rules, q, Value(v as u8));
    }
    next
}

// Puts the arc lines.
pub(crate) fn put_arcs(buffer: &mut [u8], at: usize, rules: &RuleSet<'_>) -> usize
    requires { Writable rules.now }
    ensures { Wrote buffer.old at (listed (row_text (rules_in rules.now).arcs) rules.now.size.states) buffer.new result }
{
    let mut next = at;
    for q in 0..rules.size.states {
        next = put_row(buffer, next, rules, State(q as u8));
    }
    next
}

// Puts the whole text of a rule set, as far as the buffer has room, and gives its length.
pub(crate) fn put_sheet(buffer: &mut [u8], rules: &RuleSet<'_>) -> usize
    requires { Writable rules.now }
    ensures { Wrote buffer.old 0 (sheet_text (rules_in rules.now) rules.now.size.start.0) buffer.new result }
{
    let a = put_size(buffer, 0, rules.size);
    let b = put_finals(buffer, a, rules.accepting, rules.size.states);
    put_arcs(buffer, b, rules)
}
