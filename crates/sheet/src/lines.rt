// The lines of a sheet, each judged by itself.
ghost use Rattle.std.specs.Prelude.{◌≡◌, ◌+◌, ◌*◌, ◌≤◌, length, drop};
ghost use Rattle.sheet.specs.Lines.{place, read_size, read_final, read_arc, read_line};
ghost use Rattle.sheet.specs.Inner.{Sized, line_of, row_view};

use kinds::{State, Value};
use rules::arcs::arc_at;
use rules::{Size, bounds};
use text::bytes::begins;
use text::lines::{Fault, close_at};
use text::numbers::{field_at, number_at};

// A line after the first.
#[derive(Clone, Copy)]
pub(crate) enum Row {
    Final(State),
    Arc(State, Value, State, u16),
}

// The size line.
pub(crate) fn size_line(line: &[u8]) -> Result<Size, Fault>
    ensures { result ≡ read_size line.now }
{
    if !begins(line, b"size") {
        return Err(Fault::Form);
    }
    let states = field_at(line, 5, 1, bounds::MOST_STATES as u32)?;
    let values = field_at(line, states.end, 1, bounds::MOST_VALUES as u32)?;
    let start = number_at(line, values.end, 0, states.value - 1)?;
    close_at(line, start.end, true)?;
    Ok(Size {
        states: states.value as usize,
        values: values.value as usize,
        start: State(start.value as u8),
    })
}

// A final line, past its word, where `next` is the first free place of the order.
pub(crate) fn final_line(line: &[u8], size: Size, next: usize) -> Result<Row, Fault>
    requires { (6 ≤ length line.now) × Sized size }
    ensures { row_view result ≡ read_final size next (drop 6 line.now) }
{
    let state = number_at(line, 6, 0, (size.states - 1) as u32)?;
    let q = State(state.value as u8);
    close_at(line, state.end, next <= usize::from(q))?;
    Ok(Row::Final(q))
}

// The place of an arc line in the sheet's order: behind the final lines, by state and value.
pub(crate) fn arc_place(size: Size, q: State, v: Value) -> usize
    requires { Sized size }
    ensures { result ≡ size.states + (q.0 * size.values + v.0) }
{
    size.states + arc_at(q, v, size.values as u8)
}

// An arc line, past its word.
pub(crate) fn arc_line(line: &[u8], size: Size, next: usize) -> Result<Row, Fault>
    requires { (4 ≤ length line.now) × Sized size }
    ensures { row_view result ≡ read_arc size next (drop 4 line.now) }
{
    let last_state = (size.states - 1) as u32;
    let state = field_at(line, 4, 0, last_state)?;
    let value = field_at(line, state.end, 0, (size.values - 1) as u32)?;
    let target = field_at(line, value.end, 0, last_state)?;
    let cost = number_at(line, target.end, 0, u32::from(bounds::MOST_COST))?;
    let q = State(state.value as u8);
    let v = Value(value.value as u8);
    close_at(line, cost.end, next <= arc_place(size, q, v))?;
    Ok(Row::Arc(q, v, State(target.value as u8), cost.value as u16))
}

// A line after the first.
pub(crate) fn row_of(line: &[u8], size: Size, next: usize) -> Result<Row, Fault>
    requires { Sized size }
    ensures { row_view result ≡ read_line size next line.now }
{
    if begins(line, b"final") {
        return final_line(line, size, next);
    }
    if begins(line, b"arc") {
        return arc_line(line, size, next);
    }
    Err(Fault::Form)
}

// The first free place of the order after a row.
pub(crate) fn after_row(size: Size, row: Row) -> usize
    requires { Sized size }
    ensures { result ≡ place size (line_of row) + 1 }
{
    match row {
        Row::Final(q) => usize::from(q) + 1,
        Row::Arc(q, v, _, _) => arc_place(size, q, v) + 1,
    }
}
