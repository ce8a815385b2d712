// The lines of a job, taken one by one into the masks and limits.
ghost use Rattle.std.specs.Prelude.{◌≡◌, [], ◌∷◌, ◌≤◌, length, drop};
ghost use Rattle.meaning.specs.Meaning.{places, decides};
ghost use Rattle.meaning.specs.Bounds.{most_values};
ghost use Rattle.text.specs.Lines.{lines};
ghost use Rattle.job.specs.Input.{most_days, most_lines, read_decisions};
ghost use Rattle.job.specs.Inner.{decision_of, AskedIn, Took};

use crate::asks::{Asked, asked_of};
use kinds::Mask;
use text::lines::line_end;

// As many decisions as a job may have.
pub(crate) const MOST_LINES: usize = 512;

// The number of the first line that there is no room for: the decisions stand behind the days line.
pub(crate) const LINES_END: usize = MOST_LINES + 2;

// The number of a job's first wrong line.
#[derive(Clone, Copy)]
pub(crate) struct WrongLine(pub(crate) usize);

// Takes one decision: the meet of both masks, or the smaller of both limits.
pub(crate) fn take_one(asked: Asked, masks: &mut [u16], limits: &mut [u32])
    requires { AskedIn asked (length masks.old) (length limits.old) }
    ensures { places masks.new limits.new ≡ decides (places masks.old limits.old) (decision_of asked ∷ []) }
{
    match asked {
        Asked::Keep(place, mask) => {
            let met = Mask(masks[place]).meet(mask);
            masks[place] = met.0;
        }
        Asked::Limit(place, limit) => {
            limits[place] = limits[place].min(limit);
        }
    }
}

// Takes the lines from `from` on, up to the first wrong one.
pub(crate) fn take_lines(
    text: &[u8],
    from: usize,
    values: usize,
    masks: &mut [u16],
    limits: &mut [u32],
) -> Result<(), WrongLine>
    requires { (1 ≤ length masks.old) × (length masks.old ≤ most_days) × (length limits.old ≡ length masks.old) × (values ≤ most_values) × (from ≤ length text.now) }
    ensures { Took (read_decisions (length masks.old) values 2 most_lines (lines (drop from text.now))) masks.old limits.old result masks.new limits.new }
{
    let mut at = from;
    for number in 2..LINES_END {
        if text.len() <= at {
            return Ok(());
        }
        let end = line_end(text, at);
        let Ok(asked) = asked_of(&text[at..end], masks.len(), values) else {
            return Err(WrongLine(number));
        };
        take_one(asked, masks, limits);
        at = end;
    }
    if at < text.len() {
        return Err(WrongLine(LINES_END));
    }
    Ok(())
}
