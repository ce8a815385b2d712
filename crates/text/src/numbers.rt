// Decimal numbers in a line, of any digit count.
ghost use Rattle.std.specs.Prelude.{◌≡◌, ◌≤◌, length, drop};
ghost use Rattle.text.specs.Numbers.{read_number, read_field, plain, digits, field_end, NumberAt};
ghost use Rattle.text.specs.Inner.{RunAt, Ended};

use crate::bytes::{Sort, sort_of};

// A run of digits.
#[derive(Clone, Copy)]
pub(crate) struct Run {
    pub(crate) end: usize,
    pub(crate) value: u64,
}

// A field read as a number: its value, and where it ends.
#[derive(Clone, Copy)]
pub struct Number {
    pub value: u32,
    pub end: usize,
}

// Why a field is no number in range.
#[derive(Clone, Copy, PartialEq, Eq)]
pub enum NumberFault {
    Malformed,
    Outside,
}

// The digits at `at`: where they end, and their value, which is exact where it is at most `most`.
pub(crate) fn run_at(line: &[u8], at: usize, most: u32) -> Run
    requires { at ≤ length line.now }
    ensures { RunAt line.now at most result.end result.value }
{
    let mut value: u64 = 0;
    for i in at..line.len() {
        let b = line[i];
        if sort_of(b) != Sort::Digit {
            return Run { end: i, value };
        }
        // past `most` it stays there, so that it cannot wrap
        if value <= u64::from(most) {
            value = value * 10 + u64::from(b - b'0');
        }
    }
    Run {
        end: line.len(),
        value,
    }
}

// Whether the digits from `at` to `end` are at least one, with no zero before another: a first digit 0 stands alone.
pub(crate) fn plain_at(line: &[u8], at: usize, end: usize) -> bool
    requires { Ended line.now at end }
    ensures { result ≡ plain (digits (drop at line.now)) }
{
    if at == line.len() || sort_of(line[at]) != Sort::Digit {
        return false;
    }
    line[at] != b'0' || end == at + 1
}

// Whether a field ends at `end`: there is a tab, a line feed, or nothing.
pub(crate) fn field_ends(line: &[u8], end: usize) -> bool
    requires { end ≤ length line.now }
    ensures { result ≡ field_end (drop end line.now) }
{
    if end == line.len() {
        return true;
    }
    let sort = sort_of(line[end]);
    sort == Sort::Tab || sort == Sort::Feed
}

// The field at `at` as a number from `low` to `high`.
pub fn number_at(line: &[u8], at: usize, low: u32, high: u32) -> Result<Number, NumberFault>
    ensures { NumberAt (read_number low high (drop at line.now)) line.now result }
{
    if line.len() < at {
        return Err(NumberFault::Malformed);
    }
    let Run { end, value } = run_at(line, at, high);
    if !plain_at(line, at, end) || !field_ends(line, end) {
        return Err(NumberFault::Malformed);
    }
    if u64::from(high) < value || value < u64::from(low) {
        return Err(NumberFault::Outside);
    }
    Ok(Number {
        value: value as u32,
        end,
    })
}

// The same for a field that is not the last of its line: its tab is taken too.
pub fn field_at(line: &[u8], at: usize, low: u32, high: u32) -> Result<Number, NumberFault>
    ensures { NumberAt (read_field low high (drop at line.now)) line.now result }
{
    let Number { value, end } = number_at(line, at, low, high)?;
    if end == line.len() || sort_of(line[end]) != Sort::Tab {
        return Err(NumberFault::Malformed);
    }
    Ok(Number {
        value,
        end: end + 1,
    })
}
