// The checks that the planner makes of what it is lent.
ghost use Rattle.std.specs.Prelude.{◌≡◌, ◌&&◌, ◌<◌, ◌^◌, SomeIff, eqb, leb, length};
ghost use Rattle.meaning.specs.Bounds.{most_changes, plan_size};
ghost use Rattle.rules.specs.Answers.{answer_of, decided};
ghost use Rattle.rules.specs.Checks.{handed_in};
ghost use Rattle.rules.specs.Report.{values_right};
ghost use Rattle.mending.specs.Outcomes.{rosters_long, mend_checks};

use rooms::near::ROWS;
use rules::steps::values_right;
use rules::{Answer, RuleSet, bounds};

// The length of a work table for so many places; none, where no slice is that long.
pub(crate) fn plan_size(places: usize) -> Option<usize>
    ensures { SomeIff result (plan_size places < 2 ^ 64) (plan_size places) }
{
    places
        .checked_add(1)?
        .checked_mul(ROWS * bounds::MOST_STATES)
}

// Whether each lent slice has its length: else answer 2. The first four as in the checker: `mending`, on which both stand, has no code.
#[tactic(auto, unfolding(mending::specs::Outcomes::rosters_long))]
pub(crate) fn lengths_right(
    places: usize,
    masks: usize,
    limits: usize,
    drawn: usize,
    roster: usize,
    work: usize,
) -> bool
    ensures { result ≡ (rosters_long places masks limits drawn roster && eqb work (plan_size places)) }
{
    masks == places
        && limits == places
        && drawn == places
        && roster == places
        && plan_size(places) == Some(work)
}

// Whether so many changes can be asked for, and every drawn value is below V: else answer 7.
pub(crate) fn in_range(values: usize, most: u32, drawn: &[u8]) -> bool
    ensures { result ≡ (leb most most_changes && values_right values drawn.now) }
{
    most <= bounds::MOST_CHANGES && values_right(values, drawn)
}

// The checks of a call, in their order: refused with the answer of the first that is not passed.
#[tactic(auto, unfolding(rules::specs::Answers::decided))]
pub(crate) fn judged(
    places: usize,
    rules: &RuleSet<'_>,
    masks: &[u16],
    limits: &[u32],
    drawn: &[u8],
    most: u32,
    roster: &[u8],
    work: &[u32],
) -> Result<(), Answer>
    ensures { answer_of result ≡ decided (mend_checks (handed_in places rules.now) masks.now limits.now drawn.now most (length roster.now) (length work.now)) (λ n. n) 0 }
{
    let values = rules.size.values;
    let long = lengths_right(
        places,
        masks.len(),
        limits.len(),
        drawn.len(),
        roster.len(),
        work.len(),
    );
    rules.checked(places, long)?;
    if !rules::masks_right(values, masks) {
        return Err(Answer::WrongMask);
    }
    if !in_range(values, most, drawn) {
        return Err(Answer::OutOfRange);
    }
    Ok(())
}
