// The planner: mends a drawn roster with as few changes as can be.
#![tactic(auto)]

ghost use Rattle.std.specs.Prelude.{◌≡◌};
ghost use Rattle.rules.specs.Checks.{handed_in};
ghost use Rattle.rules.specs.Answers.{answer_of, carried};
ghost use Rattle.mending.specs.Outcomes.{planned, mend_of};

mod answers;
mod walk;
mod whole;

use rooms::rows::wipe;
use rules::{Answer, RuleSet};

// The planner: writes the allowed roster that differs from the drawn one in the fewest places, at most so many; the first of equals.
// Gives the number of changes.
#[tactic(auto, using(crate::proofs::Answering::none_told))]
pub fn mend(
    places: usize,
    rules: &RuleSet<'_>,
    masks: &[u16],
    limits: &[u32],
    drawn: &[u8],
    most: u32,
    roster: &mut [u8],
    work: &mut [u32],
) -> Result<u32, Answer>
    ensures { planned (answer_of result) (carried result) roster.new work.new ≡ mend_of (handed_in places rules.now) masks.now limits.now drawn.now most roster.old work.old }
{
    let judged = answers::judged(places, rules, masks, limits, drawn, most, roster, work);
    if let Err(answer) = judged {
        if 2 < answer.number() {
            wipe(work);
        }
        return Err(answer);
    }
    let found = whole::mend_from(rules, 0, masks, limits, drawn, most as usize, roster, work);
    let Some(made) = found else {
        return Err(Answer::NoRoster);
    };
    Ok(made as u32)
}
