// The tables of a sheet whose states are a list of configurations.
ghost use Rattle.std.specs.Prelude.{◌≡◌, cond, ◌++◌, map, ◌+◌, ◌^◌, ◌≤◌, ◌<◌, length, take, replicate};
ghost use Rattle.std.specs.Int.Bits.{bit_or};
ghost use Rattle.meaning.specs.Bounds.{most_states, most_values, table_size};
ghost use Rattle.numbering.specs.Numbering.{target_of, targets_of, accepting_of, over};
ghost use Rattle.compositor.specs.Inner.{onward_in, ends_by};

use crate::met::Met;
use crate::states::Automaton;
use kinds::{State, Value};
use rules::arcs::arc_at;

// Writes the targets of one state, from `at` on: by place, since the law is about places, and a zip would say no more.
fn put_row(targets: &mut [u8], at: usize, met: &Met, row: &[u32])
    requires { (at + length row.now ≤ length targets.old) × (length met.now ≤ most_states) }
    ensures { targets.new ≡ over (take at targets.old ++ map (target_of met.now) row.now) targets.old }
{
    for (i, c) in row.iter().enumerate() {
        targets[at + i] = met.target_of(*c);
    }
}

// Writes the targets of all states.
pub(crate) fn fill(targets: &mut [u8], values: usize, automaton: &Automaton, met: &Met)
    requires { (length targets.old ≡ table_size) × (values ≤ most_values) × (length met.now ≤ most_states) }
    ensures { targets.new ≡ over (targets_of (onward_in automaton.now) values met.now) targets.old }
{
    for (q, c) in met.configurations().iter().enumerate() {
        let row = automaton.onward_row(values, *c);
        let at = arc_at(State(q as u8), Value(0), values as u8);
        put_row(targets, at, met, &row[..values]);
    }
}

// No arc costs anything. A function of one line, for its clause and its wrong program.
pub(crate) fn free(costs: &mut [u16], count: usize)
    requires { count ≤ length costs.old }
    ensures { costs.new ≡ over (replicate count 0) costs.old }
{
    costs[..count].fill(0);
}

// State q joins the accepting states, if it accepts.
fn join(set: u64, q: usize, accepting: bool) -> u64
    requires { q < most_states }
    ensures { result ≡ cond accepting (bit_or set (2 ^ q)) set }
{
    if accepting { set | (1u64 << q) } else { set }
}

// The accepting states.
pub(crate) fn accepting_of(automaton: &Automaton, met: &Met) -> u64
    requires { length met.now ≤ most_states }
    ensures { result ≡ accepting_of (ends_by automaton.now.null automaton.now.last) met.now }
{
    let mut set: u64 = 0;
    for (q, c) in met.configurations().iter().enumerate() {
        set = join(set, q, automaton.accepts(*c));
    }
    set
}
