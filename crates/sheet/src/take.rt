// The lines of a whole sheet, taken one by one into the tables, as far as these have room: with none, they are judged only.
ghost use Rattle.std.specs.Prelude.{◌≡◌, [], ◌∷◌, ◌≤◌, length, drop};
ghost use Rattle.meaning.specs.Bounds.{no_target};
ghost use Rattle.text.specs.Lines.{lines};
ghost use Rattle.sheet.specs.Sheets.{read_rest, read_sheet, blank};
ghost use Rattle.sheet.specs.Inner.{Sized, RowIn, Put, line_of, Took};

use crate::Unread;
use crate::lines::{Row, after_row, row_of, size_line};
use rules::arcs::arc_at;
use rules::{Outline, Size, bounds};
use text::lines::{Fault, line_end};

// Puts a row into the accepting mask, or into the tables where they have room.
pub(crate) fn put_row(
    targets: &mut [u8],
    costs: &mut [u16],
    size: Size,
    row: Row,
    accepting: u64,
) -> u64
    requires { (length targets.old ≡ length costs.old) × Sized size × RowIn size row }
    ensures { Put size.values (line_of row ∷ []) accepting targets.old costs.old result targets.new costs.new }
{
    match row {
        Row::Final(q) => accepting | (1u64 << q.0),
        Row::Arc(q, v, t, c) => {
            let i = arc_at(q, v, size.values as u8);
            if i < targets.len() {
                targets[i] = t.0;
                costs[i] = c;
            }
            accepting
        }
    }
}

// Takes the lines from the second, at `from`, up to the first wrong one.
pub(crate) fn take_lines(
    text: &[u8],
    from: usize,
    size: Size,
    targets: &mut [u8],
    costs: &mut [u16],
) -> Result<Outline, Unread>
    requires { (from ≤ length text.now) × Sized size × (length targets.old ≡ length costs.old) }
    ensures { Took (read_rest size 0 2 (lines (drop from text.now))) targets.old costs.old result targets.new costs.new }
{
    let mut at = from;
    let mut next: usize = 0;
    let mut number: usize = 2;
    let mut accepting: u64 = 0;
    // no `for`: a step is as long as its line
    while at < text.len() {
        let end = line_end(text, at);
        let row = row_of(&text[at..end], size, next).map_err(|fault| Unread::WrongLine(
            number, fault,
        ))?;
        accepting = put_row(targets, costs, size, row, accepting);
        next = after_row(size, row);
        at = end;
        number += 1;
    }
    Ok(Outline { size, accepting })
}

// Takes a whole sheet.
pub(crate) fn take_sheet(
    text: &[u8],
    targets: &mut [u8],
    costs: &mut [u16],
) -> Result<Outline, Unread>
    requires { length targets.old ≡ length costs.old }
    ensures { Took (read_sheet text.now) targets.old costs.old result targets.new costs.new }
{
    if text.is_empty() {
        return Err(Unread::WrongLine(1, Fault::Form));
    }
    let end = line_end(text, 0);
    let size = size_line(&text[..end]).map_err(|fault| Unread::WrongLine(1, fault))?;
    take_lines(text, end, size, targets, costs)
}

// Makes the first `count` places of the tables blank.
#[tactic(auto, unfolding(crate::specs::Sheets::blank))]
pub(crate) fn clear(targets: &mut [u8], costs: &mut [u16], count: usize)
    requires { (count ≤ length targets.old) × (count ≤ length costs.old) }
    ensures { (targets.new ≡ blank count no_target targets.old) × (costs.new ≡ blank count 0 costs.old) }
{
    targets[..count].fill(bounds::NO_TARGET);
    costs[..count].fill(0);
}
