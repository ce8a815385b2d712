// The memory of a session: the image of an abstract session, tested before a call, and shown anew after it.
#![tactic(auto)]

ghost use Rattle.std.specs.Prelude.{◌≡◌};
ghost use Rattle.rules.specs.Checks.{handed_in};
ghost use Rattle.rules.specs.Answers.{answer_of};
ghost use Rattle.ledger.specs.Readiness.{readiness, ready_of, left, renewed_of};

mod held;
pub mod layout;
mod lent;
pub mod lists;
mod refresh;
mod replay;
pub mod rows;
mod shown;

use rules::{Answer, RuleSet};

// Whether the memory is ready for a call, or the refusal by 1, 2, 3 or 12.
pub fn ready(
    places: usize,
    rules: &RuleSet<'_>,
    memory: &[u32],
    work: &mut [u32],
) -> Result<(), Answer>
    ensures { readiness (answer_of result) work.new ≡ ready_of (handed_in places rules.now) memory.now work.old }
{
    lent::lent_right(places, rules, memory, work)?;
    if !refresh::shown_right(places, rules, memory, work) {
        return Err(Answer::WrongMemory);
    }
    Ok(())
}

// Shows what a filter tells of what is held, and answers by it; what was shown before plays no part.
pub fn renew(
    places: usize,
    rules: &RuleSet<'_>,
    memory: &mut [u32],
    work: &mut [u32],
) -> Result<(), Answer>
    ensures { left (answer_of result) memory.new work.new ≡ renewed_of (handed_in places rules.now) memory.old work.old }
{
    lent::lent_right(places, rules, memory, work)?;
    refresh::show_held(places, rules, memory, work)
}
