// The rule tables: where an arc stands in them, and the check of answer 3.
ghost use Rattle.std.specs.Prelude.{◌≡◌, ◌+◌, ◌*◌, ◌^◌, ◌≤◌, ◌<◌, length, get_or, ltb};
ghost use Rattle.meaning.specs.Bounds.{most_states, most_values, table_size};
ghost use Rattle.rules.specs.Checks.{arc_right, tables_right};

use crate::{RuleSet, bounds};
use kinds::{State, Value};

// Where the arc of a state on a value stands in a rule table of `values` values: a row for each state.
pub fn arc_at(q: State, v: Value, values: u8) -> usize
    ensures { result ≡ q.0 * values + v.0 }
{
    usize::from(q) * usize::from(values) + usize::from(v)
}

// The arcs of a rule set whose size and tables' length are right.
#[derive(Clone, Copy)]
pub(crate) struct Arcs<'a> {
    pub(crate) states: usize,
    pub(crate) values: usize,
    pub(crate) targets: &'a [u8],
    ghost in_range: { (states ≤ most_states) × (values ≤ most_values) × (length targets.now ≡ table_size) },
}

impl Arcs<'_> {
    // Where the arc of a state on a value leads.
    #[tactic(auto, using(crate::proofs::Checks::arc_place))]
    pub(crate) fn target_of(&self, q: State, v: Value) -> u8
        requires { (q.0 < most_states) × (v.0 < self.now.values) }
        ensures { result ≡ get_or self.now.targets.now (q.0 * self.now.values + v.0) 0 }
    {
        self.targets[arc_at(q, v, self.values as u8)]
    }
}

// Whether one arc is lawful: missing at no cost, or to a state at a cost in range.
#[tactic(auto, unfolding(crate::specs::Checks::arc_right))]
pub(crate) fn arc_right(states: usize, target: u8, cost: u16) -> bool
    requires { states ≤ most_states }
    ensures { result ≡ arc_right states target cost }
{
    if target == bounds::NO_TARGET {
        return cost == 0;
    }
    usize::from(target) < states && cost <= bounds::MOST_COST
}

// Whether no accepting bit stands at or above the number of states.
#[tactic(auto, using(kinds::proofs::Bits::none_above, kinds::proofs::Bits::below_width))]
pub(crate) fn accepting_right(states: usize, accepting: u64) -> bool
    requires { states ≤ most_states }
    ensures { result ≡ ltb accepting (2 ^ states) }
{
    if states == bounds::MOST_STATES {
        return true;
    }
    accepting >> states == 0
}

// Whether the first Q × V places of the tables and the accepting mask are lawful.
pub(crate) fn tables_right(rules: &RuleSet<'_>) -> bool
    requires { (rules.now.size.states ≤ most_states) × (rules.now.size.values ≤ most_values) × (length rules.now.targets.now ≡ table_size) × (length rules.now.costs.now ≡ table_size) }
    ensures { result ≡ tables_right rules.now.size.states rules.now.size.values rules.now.targets.now rules.now.costs.now rules.now.accepting }
{
    let states = rules.size.states;
    // by place: of a chain over zip and take no proof was found
    for k in 0..states * rules.size.values {
        if !arc_right(states, rules.targets[k], rules.costs[k]) {
            return false;
        }
    }
    accepting_right(states, rules.accepting)
}
