// Lines of fields: where a line ends, and the judgement of what stands after its last field.
ghost use Rattle.std.specs.Prelude.{◌≡◌, drop};
ghost use Rattle.text.specs.Lines.{ending, number_fault, field_fault, LineEnd};

use crate::bytes::{Sort, sort_of};
use crate::numbers::{Number, NumberFault};

// Why a line is wrong: its form, a number out of range, its place in the order, or its line feed is missing.
#[derive(Clone, Copy, PartialEq, Eq)]
pub enum Fault {
    Form,
    Range,
    Order,
    Cut,
}

// The fault of a field, by what was read there: its range where it is a number out of range, else its form.
pub fn fault_of(n: Result<Number, NumberFault>) -> Fault
    ensures { result ≡ field_fault n }
{
    match n {
        Ok(_) => Fault::Form,
        Err(NumberFault::Malformed) => Fault::Form,
        Err(NumberFault::Outside) => Fault::Range,
    }
}

// The fault of a field that is no number in range.
impl From<NumberFault> for Fault {
    ghost from_gives = { λ n f. f ≡ number_fault n };

    fn from(n: NumberFault) -> Fault {
        fault_of(Err(n))
    }
}

// Judges what stands after the last field of a line.
pub fn close_at(line: &[u8], end: usize, ordered: bool) -> Result<(), Fault>
    ensures { result ≡ ending ordered (drop end line.now) }
{
    if line.len() <= end {
        return Err(if ordered { Fault::Cut } else { Fault::Order });
    }
    if end + 1 < line.len() || sort_of(line[end]) != Sort::Feed {
        return Err(Fault::Form);
    }
    if ordered { Ok(()) } else { Err(Fault::Order) }
}

// Where the line at `at` ends: past its line feed, or at the end of the text. Past the end of the text no line is left.
pub fn line_end(text: &[u8], at: usize) -> usize
    ensures { LineEnd text.now at result }
{
    // by place: of `position` with a closure that calls sort_of no proof was found
    for i in at..text.len() {
        if sort_of(text[i]) == Sort::Feed {
            return i + 1;
        }
    }
    at.max(text.len())
}
