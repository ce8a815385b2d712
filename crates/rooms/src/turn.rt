// The rule tables turned: the arcs on one value in one row, so that the passes read them in a run.
ghost use Rattle.std.specs.Prelude.{◌≡◌, ◌+◌, ◌*◌, ◌≤◌, ◌<◌, length};
ghost use Rattle.meaning.specs.Meaning.{arcs_of, target, cost};
ghost use Rattle.meaning.specs.Bounds.{most_states, most_values, table_size};
ghost use Rattle.rooms.specs.Tables.{Filled, turned, Same, Outside};

use kinds::{State, Value};
use rules::arcs::arc_at;
use rules::bounds;

// Where the arc of a state on a value stands in a turned table: a row for each value.
pub fn turned_at(q: State, v: Value) -> usize
    ensures { result ≡ v.0 * most_states + q.0 }
{
    usize::from(v) * bounds::MOST_STATES + usize::from(q)
}

// The arcs on one value.
pub(crate) fn turn_value(
    states: usize,
    values: usize,
    targets: &[u8],
    costs: &[u16],
    v: Value,
    to: &mut [u8],
    fee: &mut [u16],
)
    requires { (states ≤ most_states) × (values ≤ most_values) × (length targets.now ≡ table_size) × (length costs.now ≡ table_size) × (v.0 < values) × (states ≤ length to.old) × (states ≤ length fee.old) }
    ensures { Filled (λ q. target (arcs_of states values targets.now costs.now) q v.0) states to.old to.new × Filled (λ q. cost (arcs_of states values targets.now costs.now) q v.0) states fee.old fee.new }
{
    for q in 0..states {
        let at = arc_at(State(q as u8), v, values as u8);
        to[q] = targets[at];
        fee[q] = costs[at];
    }
}

// The arcs on every value.
pub(crate) fn turn(
    states: usize,
    values: usize,
    targets: &[u8],
    costs: &[u16],
    to: &mut [u8],
    fee: &mut [u16],
)
    requires { (states ≤ most_states) × (values ≤ most_values) × (length targets.now ≡ table_size) × (length costs.now ≡ table_size) × (length to.old ≡ table_size) × (length fee.old ≡ table_size) }
    ensures { Same (arcs_of states values targets.now costs.now) values (turned to.new fee.new) × Outside states values to.old to.new × Outside states values fee.old fee.new }
{
    for v in 0..values {
        let at = turned_at(State(0), Value(v as u8));
        let end = at + bounds::MOST_STATES;
        turn_value(
            states,
            values,
            targets,
            costs,
            Value(v as u8),
            &mut to[at..end],
            &mut fee[at..end],
        );
    }
}
