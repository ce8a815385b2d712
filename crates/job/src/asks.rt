// The lines of a job, each judged by itself.
ghost use Rattle.std.specs.Prelude.{◌≡◌, true, [], ◌∷◌, ◌++◌, ◌≤◌, drop};
ghost use Rattle.meaning.specs.Bounds.{most_values};
ghost use Rattle.meaning.specs.Lists.{all};
ghost use Rattle.text.specs.Bytes.{tab, is_small};
ghost use Rattle.job.specs.Input.{most_days, read_count, read_keep, read_limit, read_decision};
ghost use Rattle.job.specs.Inner.{AskedAt};

use kinds::Mask;
use text::bytes::begins;
use text::lines::{Fault, close_at};
use text::numbers::{field_at, number_at};

// As many days as a job may have.
pub(crate) const MOST_DAYS: u32 = 128;

// What a later line asks for: a decision on a place.
#[derive(Clone, Copy)]
pub(crate) enum Asked {
    Keep(usize, Mask),
    Limit(usize, u32),
}

// A line of that word and a number in range.
pub(crate) fn count_line(line: &[u8], word: &[u8], low: u32, high: u32) -> Result<u32, Fault>
    requires { all is_small word.now ≡ true }
    ensures { result ≡ read_count (word.now ++ tab ∷ []) low high line.now }
{
    if !begins(line, word) {
        return Err(Fault::Form);
    }
    let count = number_at(line, word.len() + 1, low, high)?;
    close_at(line, count.end, true)?;
    Ok(count.value)
}

// A keep line, past its word.
pub(crate) fn keep_line(line: &[u8], places: usize, values: usize) -> Result<Asked, Fault>
    requires { (1 ≤ places) × (places ≤ most_days) × (values ≤ most_values) }
    ensures { AskedAt (read_keep places values (drop 5 line.now)) places result }
{
    let place = field_at(line, 5, 0, (places - 1) as u32)?;
    // no mask of so many values is larger than the full one
    let most = Mask::full(values);
    let mask = number_at(line, place.end, 0, most.0 as u32)?;
    close_at(line, mask.end, true)?;
    Ok(Asked::Keep(place.value as usize, Mask(mask.value as u16)))
}

// A limit line, past its word.
pub(crate) fn limit_line(line: &[u8], places: usize) -> Result<Asked, Fault>
    requires { (1 ≤ places) × (places ≤ most_days) }
    ensures { AskedAt (read_limit places (drop 6 line.now)) places result }
{
    let place = field_at(line, 6, 0, (places - 1) as u32)?;
    let cost = number_at(line, place.end, 0, u32::MAX)?;
    close_at(line, cost.end, true)?;
    Ok(Asked::Limit(place.value as usize, cost.value))
}

// A line after the first.
pub(crate) fn asked_of(line: &[u8], places: usize, values: usize) -> Result<Asked, Fault>
    requires { (1 ≤ places) × (places ≤ most_days) × (values ≤ most_values) }
    ensures { AskedAt (read_decision places values line.now) places result }
{
    if begins(line, b"keep") {
        return keep_line(line, places, values);
    }
    if begins(line, b"limit") {
        return limit_line(line, places);
    }
    Err(Fault::Form)
}
