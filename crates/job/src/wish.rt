// The two lines that a mending job ends with: the drawn roster, and the most changes.
ghost use Rattle.std.specs.Prelude.{◌≡◌, ◌+◌, ◌≤◌, length, drop};
ghost use Rattle.meaning.specs.Bounds.{most_values};
ghost use Rattle.text.specs.Lines.{sealed, lines};
ghost use Rattle.job.specs.Mend.{read_drawn, read_wish};
ghost use Rattle.job.specs.Inner.{DrawnAt, LastAt, wish_view};

use crate::asks::count_line;
use crate::take::WrongLine;
use rules::bounds::MOST_CHANGES;
use text::bytes::begins;
use text::lines::{Fault, close_at, line_end};
use text::numbers::{field_at, number_at};

// Where the lines before the drawn one end, and the number of the line there: the decisions stand behind the days line.
#[derive(Clone, Copy)]
pub(crate) struct Drawn {
    pub(crate) at: usize,
    pub(crate) number: usize,
}

// The first line from `from` on that begins with the word `drawn`, or the end of the text.
pub(crate) fn drawn_at(text: &[u8], from: usize) -> Drawn
    requires { from ≤ length text.now }
    ensures { DrawnAt text.now from result.at result.number }
{
    let mut at = from;
    let mut number: usize = 2;
    // no `for`: a step is as long as its line, and there may be any number of lines
    while at < text.len() {
        let end = line_end(text, at);
        if begins(&text[at..end], b"drawn") {
            return Drawn { at, number };
        }
        at = end;
        number += 1;
    }
    Drawn { at, number }
}

// The drawn line: a value for each place.
pub(crate) fn drawn_line(line: &[u8], values: usize, drawn: &mut [u8]) -> Result<(), Fault>
    requires { (1 ≤ length drawn.old) × (1 ≤ values) × (values ≤ most_values) }
    ensures { sealed drawn.new result ≡ read_drawn (length drawn.old) values line.now }
{
    if !begins(line, b"drawn") {
        return Err(Fault::Form);
    }
    let most = (values - 1) as u32;
    let last = drawn.len() - 1;
    let mut at: usize = 6;
    for i in 0..last {
        let n = field_at(line, at, 0, most)?;
        drawn[i] = n.value as u8;
        at = n.end;
    }
    let n = number_at(line, at, 0, most)?;
    drawn[last] = n.value as u8;
    close_at(line, n.end, true)
}

// The line behind the drawn one, and that none stands behind it: gives the most changes.
pub(crate) fn last_line(text: &[u8], at: usize, number: usize) -> Result<u32, WrongLine>
    requires { (at ≤ length text.now) × (number ≤ length text.now + 3) }
    ensures { LastAt (lines (drop at text.now)) number result }
{
    if text.len() <= at {
        return Err(WrongLine(number));
    }
    let end = line_end(text, at);
    let Ok(most) = count_line(&text[at..end], b"most", 0, MOST_CHANGES) else {
        return Err(WrongLine(number));
    };
    if end < text.len() {
        return Err(WrongLine(number + 1));
    }
    Ok(most)
}

// Both lines, the first of which has that number.
pub(crate) fn wish_at(
    text: &[u8],
    at: usize,
    number: usize,
    values: usize,
    drawn: &mut [u8],
) -> Result<u32, WrongLine>
    requires { (at ≤ length text.now) × (number ≤ length text.now + 2) × (1 ≤ length drawn.old) × (1 ≤ values) × (values ≤ most_values) }
    ensures { wish_view result drawn.new ≡ read_wish (length drawn.old) values number (lines (drop at text.now)) }
{
    if text.len() <= at {
        return Err(WrongLine(number));
    }
    let end = line_end(text, at);
    let Ok(()) = drawn_line(&text[at..end], values, drawn) else {
        return Err(WrongLine(number));
    };
    last_line(text, end, number + 1)
}
