// What the last places spread: where a front is one of theirs but for a rise, and the mask is the same, their least costs serve again.
ghost use Rattle.std.specs.Prelude.{◌≡◌, suc, ◌+◌, ◌*◌, ◌≤◌, ◌<◌, min, length, get_or, set, IfSome};
ghost use Rattle.meaning.specs.Bounds.{most_states, top};
ghost use Rattle.rooms.specs.Tables.{Filled, Matches, Laid, Low};
ghost use Rattle.reach.specs.Looks.{Lows, Known};

use kinds::Mask;
use rooms::backward::MOST_SPAN;
use rooms::rows;
use rules::bounds;
use rules::bounds::TOP;

// A cost with a rise, one more than the top at most.
pub(crate) fn raised(cost: u32, rise: u32) -> u32
    requires { (cost ≤ suc top) × (rise ≤ suc top) }
    ensures { result ≡ min (suc top) (cost + rise) }
{
    (TOP + 1).min(cost + rise)
}

// Whether a row is another one with a rise. That of rooms is the same, but not lent out.
pub(crate) fn risen(count: usize, rise: u32, from: &[u32], row: &[u32]) -> bool
    requires { (count ≤ length from.now) × (count ≤ length row.now) × (rise ≤ suc top) × Low count from.now }
    ensures { Matches (λ k. min (suc top) (get_or from.now k 0 + rise)) count row.now result }
{
    for k in 0..count {
        if row[k] != raised(from[k], rise) {
            return false;
        }
    }
    true
}

// The first places of a row, as another has them with a rise.
pub(crate) fn lift(count: usize, rise: u32, from: &[u32], row: &mut [u32])
    requires { (count ≤ length from.now) × (count ≤ length row.old) × (rise ≤ suc top) × Low count from.now }
    ensures { Filled (λ k. min (suc top) (get_or from.now k 0 + rise)) count row.old row.new }
{
    for k in 0..count {
        row[k] = raised(from[k], rise);
    }
}

// The first live state, where there is one.
pub(crate) fn alive(states: usize, front: &[u32]) -> Option<usize>
    requires { states ≤ length front.now }
    ensures { IfSome result (λ q. q < states) }
{
    front[..states].iter().position(|cost| *cost <= TOP)
}

// How much the cost of a live state has risen since the front in a slot; 0, where no state is live.
pub(crate) fn rise_from(states: usize, slot: usize, front: &[u32], fronts: &[u32]) -> u32
    requires { (states ≤ most_states) × (states ≤ length front.now) × (slot < 8) × (length fronts.now ≡ 512) × Low states front.now }
    ensures { result ≤ suc top }
{
    match alive(states, front) {
        Some(q) => front[q].saturating_sub(fronts[slot * bounds::MOST_STATES + q]),
        None => 0,
    }
}

// How far a front lies above that of a slot, if the slot has the mask, and the front but for a rise.
pub(crate) fn rise_to(
    states: usize,
    mask: Mask,
    slot: usize,
    front: &[u32],
    fronts: &[u32],
    held: &[u16],
) -> Option<u32>
    requires { (states ≤ most_states) × (slot < 8) × (states ≤ length front.now) × (length fronts.now ≡ 512) × (length held.now ≡ 8) × Low states front.now × Lows states fronts.now held.now }
    ensures { IfSome result (λ rise. Known states mask.0 slot rise front.now fronts.now held.now) }
{
    if mask == Mask::EMPTY || held[slot] != mask.0 {
        return None;
    }
    let rise = rise_from(states, slot, front, fronts);
    let at = slot * bounds::MOST_STATES;
    let end = at + bounds::MOST_STATES;
    if risen(states, rise, &fronts[at..end], front) {
        Some(rise)
    } else {
        None
    }
}

// Whether a place is to be noted. One that was known need not be where its span divides the slots, since the places after it then come
// upon the slots of those before; and any other only where its mask is that of the place before, else it would be noted in vain.
pub(crate) fn to_note(found: bool, again: bool, span: usize) -> bool
    requires { 1 ≤ span }
{
    if found { MOST_SPAN % span != 0 } else { again }
}

// Notes a front, its mask and its least costs in a slot.
pub(crate) fn note(
    states: usize,
    mask: Mask,
    slot: usize,
    front: &[u32],
    onward: &[u32],
    fronts: &mut [u32],
    onwards: &mut [u32],
    held: &mut [u16],
)
    requires { (states ≤ most_states) × (slot < 8) × (states ≤ length front.now) × (states ≤ length onward.now) × (length fronts.old ≡ 512) × (length onwards.old ≡ 512) × (length held.old ≡ 8) }
    ensures { Laid (λ k. get_or front.now k 0) states slot fronts.old fronts.new × Laid (λ k. get_or onward.now k 0) states slot onwards.old onwards.new × (held.new ≡ set held.old slot mask.0) }
{
    let at = slot * bounds::MOST_STATES;
    let end = at + bounds::MOST_STATES;
    rows::copy(states, front, &mut fronts[at..end]);
    rows::copy(states, onward, &mut onwards[at..end]);
    held[slot] = mask.0;
}
