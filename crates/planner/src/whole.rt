// The whole planner, from any state and with any cost spent.
ghost use Rattle.std.specs.Prelude.{◌≡◌, ◌≤◌, ◌<◌, length};
ghost use Rattle.meaning.specs.Meaning.{places, rosters};
ghost use Rattle.meaning.specs.Bounds.{top};
ghost use Rattle.rules.specs.Checks.{rules_in};
ghost use Rattle.rooms.specs.Changes.{PlanSizes};
ghost use Rattle.planner.specs.Inner.{Mends};

use crate::walk;
use rooms::near;
use rooms::rows::wipe;
use rules::RuleSet;

// Mends a roster by a rule set that was found in order: gives the fewest changes, if there is a roster with no more than asked for.
pub(crate) fn mend_from(
    rules: &RuleSet<'_>,
    spent: u32,
    masks: &[u16],
    limits: &[u32],
    drawn: &[u8],
    most: usize,
    roster: &mut [u8],
    work: &mut [u32],
) -> Option<usize>
    requires { PlanSizes rules.now.size.states rules.now.size.values rules.now.targets.now rules.now.costs.now masks.now limits.now drawn.now most work.old × (rules.now.size.start.0 < rules.now.size.states) × (spent ≤ top) × (length roster.old ≡ length masks.now) }
    ensures { Mends (rosters (rules_in rules.now) rules.now.size.start.0 spent (places masks.now limits.now)) drawn.now most roster.old roster.new work.old work.new result }
{
    let size = rules.size;
    let counted = near::fewest(
        size.states,
        size.values,
        rules.targets,
        rules.costs,
        rules.accepting,
        size.start,
        spent,
        masks,
        limits,
        drawn,
        most,
        work,
    );
    // no size is wrong
    let found = counted.unwrap_or(None);
    if let Some(made) = found {
        walk::walk(rules, spent, masks, drawn, made, work, roster);
    }
    wipe(work);
    found
}
