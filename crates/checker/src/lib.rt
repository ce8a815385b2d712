// The checker: whether a roster, whoever made it, is allowed and has the claimed number of changes.
#![tactic(auto)]

ghost use Rattle.std.specs.Prelude.{◌≡◌};
ghost use Rattle.rules.specs.Checks.{handed_in};
ghost use Rattle.rules.specs.Answers.{answer_of};
ghost use Rattle.mending.specs.Outcomes.{said, check_of};
ghost use Rattle.checker.specs.Says.{says};

mod answers;
mod follow;

use rules::{Answer, RuleSet};

// The checker: says yes exactly if the roster is allowed and differs from the drawn one in so many places.
pub fn check_roster(
    places: usize,
    rules: &RuleSet<'_>,
    masks: &[u16],
    limits: &[u32],
    drawn: &[u8],
    roster: &[u8],
    claimed: u32,
) -> Result<bool, Answer>
    ensures { said (answer_of result) (says result) ≡ check_of (handed_in places rules.now) masks.now limits.now drawn.now roster.now claimed }
{
    answers::judged(places, rules, masks, limits, drawn, roster)?;
    Ok(follow::right(rules, 0, masks, limits, drawn, roster, claimed))
}
