// What a filter tells, printed.
ghost use Rattle.meaning.specs.Meaning.{places, verdict_of};
ghost use Rattle.rules.specs.Checks.{handed_in, rules_in};
ghost use Rattle.text.specs.Writing.{Wrote};
ghost use Rattle.job.specs.Output.{verdict_text};
ghost use Rattle.job.specs.Inner.{Ready};

use crate::asks::MOST_DAYS;
use crate::print::{put_line, put_masks};
use filter::filter;
use rules::{RuleSet, bounds};
use text::puts::put_word;

// Room for as many days as a job may have, and for their work table.
pub(crate) const DAYS: usize = MOST_DAYS as usize;

const WORK_SIZE: usize = (DAYS + 1) * bounds::MOST_STATES;

// Filters, and prints the kept masks and the least cost, or that there is no roster.
pub(crate) fn show(
    days: usize,
    rules: &RuleSet<'_>,
    masks: &[u16],
    limits: &[u32],
    output: &mut [u8],
) -> usize
    requires { Ready (handed_in days rules.now) masks.now limits.now }
    ensures { Wrote output.old 0 (verdict_text (verdict_of (rules_in rules.now) rules.now.size.start.0 0 (places masks.now limits.now))) output.new result }
{
    let wide = (days + 1) * bounds::MOST_STATES;
    let mut kept_room = [0u16; DAYS];
    let mut work_room = [0u32; WORK_SIZE];
    let kept = &mut kept_room[..days];
    let work = &mut work_room[..wide];
    let Ok(least) = filter(days, rules, masks, limits, kept, work) else {
        return put_word(output, 0, b"none\n");
    };
    let at = put_masks(output, kept);
    put_line(output, at, b"least\t", least as usize)
}
