// One walk along a roster, from any state and with any cost spent.
ghost use Rattle.std.specs.Prelude.{◌≡◌, true, ◌≤◌, ◌<◌, min, leb};
ghost use Rattle.meaning.specs.Meaning.{places};
ghost use Rattle.meaning.specs.Bounds.{top};
ghost use Rattle.rules.specs.Checks.{rules_in};
ghost use Rattle.rules.specs.Report.{values_right};
ghost use Rattle.mending.specs.Mending.{right};
ghost use Rattle.checker.specs.Inner.{Sizes};

use kinds::{Mask, State, Value};
use rules::RuleSet;
use rules::arcs::arc_at;
use rules::bounds::TOP;
use rules::finish::holds;

// Whether a running cost is at most a place's limit.
#[tactic(auto, unfolding(meaning::specs::Bounds::top))]
pub(crate) fn in_limit(cost: u32, limit: u32) -> bool
    ensures { result ≡ leb cost (min limit top) }
{
    cost <= limit.min(TOP)
}

// Whether the roster is allowed, and has the claimed number of changes.
pub(crate) fn right(
    rules: &RuleSet<'_>,
    spent: u32,
    masks: &[u16],
    limits: &[u32],
    drawn: &[u8],
    roster: &[u8],
    claimed: u32,
) -> bool
    requires { Sizes (rules_in rules.now) masks.now limits.now drawn.now roster.now × (rules.now.size.start.0 < rules.now.size.states) × (spent ≤ top) × (values_right rules.now.size.values roster.now ≡ true) }
    ensures { result ≡ right (rules_in rules.now) rules.now.size.start.0 spent (places masks.now limits.now) drawn.now roster.now claimed }
{
    let size = rules.size;
    let mut q = size.start;
    let mut cost = spent;
    let mut changes: u32 = 0;
    for i in 0..roster.len() {
        let v = roster[i];
        if !Mask(masks[i]).has(Value(v)) {
            return false;
        }
        let at = arc_at(q, Value(v), size.values as u8);
        let to = rules.targets[at];
        if size.states <= (to as usize) {
            return false;
        }
        let reached = cost + (rules.costs[at] as u32);
        if !in_limit(reached, limits[i]) {
            return false;
        }
        if v != drawn[i] {
            changes += 1;
        }
        q = State(to);
        cost = reached;
    }
    changes == claimed && holds(rules.accepting, q)
}
