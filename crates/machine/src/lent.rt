// What a session call is lent: the checks of answers 1, 2 and 3, and of 12 for what is held.
ghost use Rattle.std.specs.Prelude.{◌≡◌, ◌≤◌, ◌&&◌, eqb};
ghost use Rattle.meaning.specs.Bounds.{most_places, work_size};
ghost use Rattle.rules.specs.Checks.{handed_in, tables_long};
ghost use Rattle.rules.specs.Answers.{answer_of};
ghost use Rattle.ledger.specs.Layout.{memory_size};
ghost use Rattle.ledger.specs.Readiness.{readiness};
ghost use Rattle.machine.specs.Inner.{lent_of};

use crate::{held, layout};
use rules::{Answer, RuleSet, bounds, rules_right, sizes_right, tables_long};

// Whether the rule tables, the memory and the work table have their lengths.
#[tactic(auto, unfolding(rules::specs::Checks::tables_long))]
fn lengths_right(places: usize, rules: &RuleSet<'_>, memory: usize, work: usize) -> bool
    requires { places ≤ most_places }
    ensures { result ≡ (tables_long rules.now.targets.now rules.now.costs.now && (eqb memory (memory_size places) && eqb work (work_size places))) }
{
    tables_long(rules.targets, rules.costs)
        && memory == 3 * places + layout::REST_SIZE
        && work == (places + 1) * bounds::MOST_STATES
}

// Ok, or the refusal.
pub(crate) fn lent_right(
    places: usize,
    rules: &RuleSet<'_>,
    memory: &[u32],
    work: &mut [u32],
) -> Result<(), Answer>
    ensures { readiness (answer_of result) work.new ≡ lent_of (handed_in places rules.now) memory.now work.old }
{
    if !sizes_right(places, rules.size) {
        return Err(Answer::WrongSize);
    }
    if !lengths_right(places, rules, memory.len(), work.len()) {
        return Err(Answer::WrongLength);
    }
    if !rules_right(rules) {
        work.fill(0);
        return Err(Answer::WrongTables);
    }
    let front = places + layout::SHOWN;
    if !held::held_right(places, rules.size, &memory[front..]) {
        work.fill(0);
        return Err(Answer::WrongMemory);
    }
    Ok(())
}
