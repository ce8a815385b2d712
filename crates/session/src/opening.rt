// What is held at an opening.
ghost use Rattle.std.specs.Prelude.{◌≡◌, [], ◌++◌, ◌+◌, ◌≤◌, length, ◌&&◌};
ghost use Rattle.meaning.specs.Bounds.{most_places, most_states, most_values};
ghost use Rattle.ledger.specs.Sessions.{opening};
ghost use Rattle.rules.specs.Checks.{tables_long};
ghost use Rattle.ledger.specs.Calls.{open_long};
ghost use Rattle.ledger.specs.Layout.{held_size};
ghost use Rattle.ledger.specs.Memory.{held_of};

use machine::{layout, lists};
use rules::{RuleSet, Size, bounds, tables_long};

// Whether all that an opening is lent has its length, with a memory and a work table of so many numbers.
#[tactic(auto, unfolding(ledger::specs::Calls::open_long))]
pub(crate) fn lengths_right(
    places: usize,
    rules: &RuleSet<'_>,
    masks: &[u16],
    limits: &[u32],
    memory: usize,
    work: usize,
) -> bool
    requires { places ≤ most_places }
    ensures { result ≡ (tables_long rules.now.targets.now rules.now.costs.now && open_long places (opening masks.now limits.now) memory work) }
{
    tables_long(rules.targets, rules.costs)
        && memory == 3 * places + layout::REST_SIZE
        && work == (places + 1) * bounds::MOST_STATES
        && masks.len() == places
        && limits.len() == places
}

// The opening masks and limits, into memory.
fn store(places: usize, masks: &[u16], limits: &[u32], to: &mut [u32])
    requires { (length masks.now ≡ places) × (length limits.now ≡ places) × (length to.old ≡ places + places) }
    ensures { to.new ≡ masks.now ++ limits.now }
{
    lists::widen(&mut to[..places], masks);
    lists::copy(&mut to[places..], limits);
}

// A session with no entries.
pub(crate) fn begin(places: usize, size: Size, masks: &[u16], limits: &[u32], held: &mut [u32])
    requires { (places ≤ most_places) × (size.states ≤ most_states) × (size.values ≤ most_values) × (length masks.now ≡ places) × (length limits.now ≡ places) × (length held.old ≡ held_size places) }
    ensures { held.new ≡ held_of places size.states size.values size.start.0 (opening masks.now limits.now) [] }
{
    held.fill(0);
    store(places, masks, limits, &mut held[layout::OPENING..]);
    held[layout::PLACES] = places as u32;
    held[layout::STATES] = size.states as u32;
    held[layout::VALUES] = size.values as u32;
    held[layout::START] = u32::from(size.start.0);
}
