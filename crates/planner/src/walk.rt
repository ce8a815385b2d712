// The walk along the first roster with so many changes: at each place the smallest value that leaves a way to the end with those left.
ghost use Rattle.std.specs.Prelude.{◌≡◌, suc, ◌+◌, ◌*◌, ◌≤◌, ◌<◌, length};
ghost use Rattle.meaning.specs.Bounds.{most_places, most_states, most_changes};
ghost use Rattle.rules.specs.Checks.{rules_in};
ghost use Rattle.rooms.specs.Changes.{PlanSizes, row_for};
ghost use Rattle.mending.specs.Mending.{differs};
ghost use Rattle.planner.specs.Inner.{room_at, takeable, Stands, FirstTakeable, Walks};

use kinds::{Mask, State, Value};
use rooms::near::ROWS;
use rules::arcs::arc_at;
use rules::bounds::TOP;
use rules::{RuleSet, bounds};

// 1 for a change, 0 for the drawn value.
pub(crate) fn changed(value: Value, drawn: Value) -> usize
    ensures { (result ≡ differs value.0 drawn.0) × (result ≤ 1) }
{
    usize::from(value != drawn)
}

// The room that the table has at layer i for a state, with at most j changes.
#[tactic(auto, unfolding(meaning::specs::Bounds::top))]
pub(crate) fn room_at(work: &[u32], i: usize, j: usize, q: State) -> u32
    requires { (i ≤ most_places) × (j ≤ most_changes) × (q.0 < most_states) × (row_for i j * most_states + most_states ≤ length work.now) }
    ensures { result ≡ room_at work.now i (suc j) q.0 }
{
    let at = (i * ROWS + j) * bounds::MOST_STATES + usize::from(q);
    (TOP + 1).saturating_sub(work[at])
}

// Whether a value can be taken at a state, with a cost spent and so many changes left, so that a roster goes on from layer i.
#[tactic(auto, unfolding(meaning::specs::Bounds::top))]
pub(crate) fn takeable(
    rules: &RuleSet<'_>,
    work: &[u32],
    i: usize,
    mask: Mask,
    drawn: Value,
    q: State,
    spent: u32,
    left: usize,
    v: Value,
) -> bool
    requires { Stands (rules_in rules.now).arcs work.now i q.0 spent left × (v.0 < rules.now.size.values) }
    ensures { result ≡ takeable (rules_in rules.now).arcs work.now i mask.0 drawn.0 q.0 spent (suc left) v.0 }
{
    if !mask.has(v) {
        return false;
    }
    let at = arc_at(q, v, rules.size.values as u8);
    let to = rules.targets[at];
    if rules.size.states <= (to as usize) {
        return false;
    }
    let Some(left) = left.checked_sub(changed(v, drawn)) else {
        return false;
    };
    spent + (rules.costs[at] as u32) < room_at(work, i, left, State(to))
}

// The smallest value that can be taken, if there is one.
pub(crate) fn first_takeable(
    rules: &RuleSet<'_>,
    work: &[u32],
    i: usize,
    mask: Mask,
    drawn: Value,
    q: State,
    spent: u32,
    left: usize,
) -> Option<Value>
    requires { Stands (rules_in rules.now).arcs work.now i q.0 spent left }
    ensures { FirstTakeable (rules_in rules.now).arcs work.now i mask.0 drawn.0 q.0 spent (suc left) result }
{
    for n in 0..rules.size.values {
        let v = Value(n as u8);
        if takeable(rules, work, i, mask, drawn, q, spent, left, v) {
            return Some(v);
        }
    }
    None
}

// Writes the first roster with so many changes or fewer, which the table has room for.
#[tactic(auto, unfolding(meaning::specs::Bounds::top))]
pub(crate) fn walk(
    rules: &RuleSet<'_>,
    spent: u32,
    masks: &[u16],
    drawn: &[u8],
    most: usize,
    work: &[u32],
    roster: &mut [u8],
)
    requires { PlanSizes rules.now.size.states rules.now.size.values rules.now.targets.now rules.now.costs.now masks.now masks.now drawn.now most work.now × (rules.now.size.start.0 < rules.now.size.states) × (spent < room_at work.now 0 (suc most) rules.now.size.start.0) × (length roster.old ≡ length masks.now) }
    ensures { Walks (rules_in rules.now).arcs rules.now.size.start.0 spent masks.now drawn.now work.now most roster.new }
{
    let size = rules.size;
    let mut q = size.start;
    let mut cost = spent;
    let mut left = most;
    for i in 0..masks.len() {
        let was = Value(drawn[i]);
        let first = first_takeable(rules, work, i + 1, Mask(masks[i]), was, q, cost, left);
        let Some(v) = first else {
            // never over a filled table, of which alone `Walks` speaks
            return;
        };
        roster[i] = v.0;
        let at = arc_at(q, v, size.values as u8);
        cost += rules.costs[at] as u32;
        q = State(rules.targets[at]);
        left -= changed(v, was);
    }
}
