// The checks that the checker makes of what it is lent.
ghost use Rattle.std.specs.Prelude.{◌≡◌, ◌&&◌};
ghost use Rattle.rules.specs.Answers.{answer_of, decided};
ghost use Rattle.rules.specs.Checks.{handed_in};
ghost use Rattle.rules.specs.Report.{values_right};
ghost use Rattle.mending.specs.Outcomes.{rosters_long, check_checks};

use rules::steps::values_right;
use rules::{Answer, RuleSet};

// Whether each lent slice has its length: else answer 2.
#[tactic(auto, unfolding(mending::specs::Outcomes::rosters_long))]
pub(crate) fn lengths_right(
    places: usize,
    masks: usize,
    limits: usize,
    drawn: usize,
    roster: usize,
) -> bool
    ensures { result ≡ rosters_long places masks limits drawn roster }
{
    masks == places && limits == places && drawn == places && roster == places
}

// Whether every value of both rosters is below V: else answer 7.
pub(crate) fn in_range(values: usize, drawn: &[u8], roster: &[u8]) -> bool
    ensures { result ≡ (values_right values drawn.now && values_right values roster.now) }
{
    values_right(values, drawn) && values_right(values, roster)
}

// The checks of a call, in their order: refused with the answer of the first that is not passed.
#[tactic(auto, unfolding(rules::specs::Answers::decided))]
pub(crate) fn judged(
    places: usize,
    rules: &RuleSet<'_>,
    masks: &[u16],
    limits: &[u32],
    drawn: &[u8],
    roster: &[u8],
) -> Result<(), Answer>
    ensures { answer_of result ≡ decided (check_checks (handed_in places rules.now) masks.now limits.now drawn.now roster.now) (λ n. n) 0 }
{
    let values = rules.size.values;
    let long = lengths_right(places, masks.len(), limits.len(), drawn.len(), roster.len());
    rules.checked(places, long)?;
    if !rules::masks_right(values, masks) {
        return Err(Answer::WrongMask);
    }
    if !in_range(values, drawn, roster) {
        return Err(Answer::OutOfRange);
    }
    Ok(())
}
