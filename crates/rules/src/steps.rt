// The values and the steps of a drawn roster.
ghost use Rattle.std.specs.Prelude.{◌≡◌, true, ◌≤◌, ◌<◌, length};
ghost use Rattle.meaning.specs.Bounds.{most_states};
ghost use Rattle.rules.specs.Report.{values_right};
ghost use Rattle.rules.specs.Inner.{steps};

use crate::arcs::Arcs;
use crate::finish::holds;
use kinds::{State, Value};

// Whether every value of the roster is below V: else answer 7.
#[tactic(auto, unfolding(crate::specs::Report::values_right))]
pub fn values_right(values: usize, roster: &[u8]) -> bool
    ensures { result ≡ values_right values roster.now }
{
    roster.iter().all(|v| usize::from(*v) < values)
}

// The steps that the roster makes, each to a state from which it can still finish with the values left.
pub(crate) fn steps_made(arcs: &Arcs<'_>, layers: &[u64], start: State, roster: &[u8]) -> usize
    requires { (start.0 < most_states) × (length roster.now ≤ length layers.now) × (values_right arcs.now.values roster.now ≡ true) }
    ensures { result ≡ steps arcs.now.values arcs.now.targets.now layers.now start.0 roster.now }
{
    let mut q = start;
    for i in 0..roster.len() {
        let next = State(arcs.target_of(q, Value(roster[i])));
        if !holds(layers[roster.len() - (i + 1)], next) {
            return i;
        }
        q = next;
    }
    roster.len()
}
