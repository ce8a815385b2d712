// A filter of what is held: compared with what is shown, or shown.
ghost use Rattle.std.specs.Prelude.{◌≡◌, length};
ghost use Rattle.rules.specs.Checks.{handed_in};
ghost use Rattle.rules.specs.Answers.{answer_of, carried};
ghost use Rattle.ledger.specs.Readiness.{left, renewed_by};
ghost use Rattle.ledger.specs.Memory.{held_in, verdict_held};
ghost use Rattle.machine.specs.Inner.{Compared, Filterable};
ghost use Rattle.filter.specs.Filter.{left as filtered, filter_done};

use crate::{replay, shown};
use rules::{Answer, RuleSet, bounds};

// The filter of what is held.
fn refresh(
    places: usize,
    rules: &RuleSet<'_>,
    memory: &[u32],
    kept: &mut [u16],
    work: &mut [u32],
) -> Result<u32, Answer>
    requires { Filterable (handed_in places rules.now) memory.now work.old × (length kept.old ≡ places) }
    ensures { filtered (answer_of result) (carried result) kept.new work.new ≡ filter_done (verdict_held (handed_in places rules.now) (held_in places memory.now)) work.old }
{
    let mut masks_room = [0u16; bounds::MOST_PLACES];
    let mut limits_room = [0u32; bounds::MOST_PLACES];
    let masks = &mut masks_room[..places];
    let limits = &mut limits_room[..places];
    replay::come_to(places, memory, masks, limits);
    filter::filter(places, rules, masks, limits, kept, work)
}

// Whether what is shown is the filter of what is held.
pub(crate) fn shown_right(
    places: usize,
    rules: &RuleSet<'_>,
    memory: &[u32],
    work: &mut [u32],
) -> bool
    requires { Filterable (handed_in places rules.now) memory.now work.old }
    ensures { Compared (handed_in places rules.now) memory.now work.old result work.new }
{
    let mut room = [0u16; bounds::MOST_PLACES];
    let kept = &mut room[..places];
    let fresh = refresh(places, rules, memory, kept, work);
    shown::same_shown(fresh, kept, memory)
}

// Shows the filter of what is held, and answers by it.
pub(crate) fn show_held(
    places: usize,
    rules: &RuleSet<'_>,
    memory: &mut [u32],
    work: &mut [u32],
) -> Result<(), Answer>
    requires { Filterable (handed_in places rules.now) memory.old work.old }
    ensures { left (answer_of result) memory.new work.new ≡ renewed_by (handed_in places rules.now) (held_in places memory.old) work.old }
{
    let mut room = [0u16; bounds::MOST_PLACES];
    let kept = &mut room[..places];
    let fresh = refresh(places, rules, memory, kept, work);
    shown::show(fresh, kept, memory);
    fresh.map(|_| ())
}
