// The filter and the first roster.
#![tactic(auto)]

ghost use Rattle.std.specs.Prelude.{◌≡◌};
ghost use Rattle.rules.specs.Checks.{handed_in};
ghost use Rattle.rules.specs.Answers.{answer_of, carried};
ghost use Rattle.filter.specs.Filter.{left, filter_of};
ghost use Rattle.filter.specs.First.{given, first_of};

mod answers;

use kinds::Value;
use reach::whole::{filter_from, first_from};
use rules::{Answer, RuleSet};

// The filter: writes the values that each place may still take, and gives the least cost of a roster.
pub fn filter(
    places: usize,
    rules: &RuleSet<'_>,
    masks: &[u16],
    limits: &[u32],
    kept: &mut [u16],
    work: &mut [u32],
) -> Result<u32, Answer>
    ensures { left (answer_of result) (carried result) kept.new work.new ≡ filter_of (handed_in places rules.now) masks.now limits.now kept.old work.old }
{
    answers::checked(places, rules, masks, limits, kept.len(), work)?;
    let size = rules.size;
    let least = filter_from(
        size.states,
        size.values,
        rules.targets,
        rules.costs,
        rules.accepting,
        size.start,
        0,
        masks,
        limits,
        kept,
        work,
    );
    least.ok_or(Answer::NoRoster)
}

// The first roster with a value at a place: each place takes the smallest value that still leaves a way to the end.
pub fn first_roster(
    places: usize,
    rules: &RuleSet<'_>,
    masks: &[u16],
    limits: &[u32],
    place: usize,
    value: Value,
    roster: &mut [u8],
    work: &mut [u32],
) -> Result<(), Answer>
    ensures { given (answer_of result) roster.new work.new ≡ first_of (handed_in places rules.now) masks.now limits.now place value.0 roster.old work.old }
{
    answers::checked(places, rules, masks, limits, roster.len(), work)?;
    let size = rules.size;
    if !answers::in_range(places, size.values, place, value) {
        return Err(answers::refused(Answer::OutOfRange, work));
    }
    if first_from(
        size.states,
        size.values,
        rules.targets,
        rules.costs,
        rules.accepting,
        size.start,
        0,
        masks,
        limits,
        place,
        value,
        roster,
        work,
    ) {
        Ok(())
    } else {
        Err(Answer::NoRoster)
    }
}
