// The least that the arcs of each row give: what stands at the other end, and the cost.
ghost use Rattle.std.specs.Prelude.{◌≡◌, suc, ◌+◌, ◌%◌, ◌^◌, ◌≤◌, length, slice_index};
ghost use Rattle.meaning.specs.Bounds.{most_states, most_values, top};
ghost use Rattle.ranks.specs.Rows.{cost_in, end_in, Lowest, Looks, Pulls, Settled, Served};

use crate::arc::{cost_of, end_of};
use kinds::Mask;
use rules::bounds;
use rules::bounds::TOP;

// Whether rows of arcs serve for a mask: they are there, and it has every value.
pub fn serves(values: usize, mask: Mask, arcs: &[u32]) -> bool
    ensures { Served values mask.0 arcs.now result }
{
    arcs.len() == bounds::TABLE_SIZE && mask == Mask::full(values)
}

// The lowest of the first numbers, one more than the top at most.
pub(crate) fn lowest(count: usize, from: &[u32]) -> u32
    requires { count ≤ length from.now }
    ensures { Lowest count from.now result }
{
    let mut least = TOP + 1;
    for k in 0..count {
        least = from[k].min(least);
    }
    least
}

// The number at the other end of an arc, with its cost.
pub(crate) fn given(arc: u32, from: &[u32]) -> u32
    requires { most_states ≤ length from.now }
    ensures { result ≡ (slice_index from.now (end_in arc) + cost_in arc) % 2 ^ 32 }
{
    from[end_of(arc)].wrapping_add(cost_of(arc))
}

// The least that the arcs of a row give, one more than the top at most. No number lies below `low`, so the row is left where the cost
// of an arc upon that is no better than the best so far.
pub(crate) fn along(row: &[u32], low: u32, from: &[u32]) -> u32
    requires { (most_values ≤ length row.now) × (low ≤ suc top) × (most_states ≤ length from.now) }
    ensures { Looks low from.now row.now result }
{
    let mut best = given(row[0], from);
    for k in 1..bounds::MOST_VALUES {
        if best <= low + cost_of(row[k]) {
            break;
        }
        best = given(row[k], from).min(best);
    }
    best.min(TOP + 1)
}

// The least that each row gives. Gives a number that none of those that they were made of is below. Where something lent has not its size, all stays, and
// it gives 0, which no number is below.
pub fn pull(states: usize, from: &[u32], arcs: &[u32], row: &mut [u32]) -> u32
    ensures { Pulls states from.now arcs.now row.old row.new result }
{
    if bounds::MOST_STATES < states
        || from.len() < bounds::MOST_STATES
        || arcs.len() != bounds::TABLE_SIZE
        || row.len() < states
    {
        return 0;
    }
    let low = lowest(states, from);
    for q in 0..states {
        let at = q * bounds::MOST_VALUES;
        let end = at + bounds::MOST_VALUES;
        row[q] = along(&arcs[at..end], low, from);
    }
    low
}

// Whether no arc that was left out of a full row could give less.
pub fn settled(states: usize, low: u32, rests: &[u32], row: &[u32]) -> bool
    ensures { Settled states low rests.now row.now result }
{
    if rests.len() < states || row.len() < states {
        return false;
    }
    for q in 0..states {
        if low.wrapping_add(rests[q]) < row[q] {
            return false;
        }
    }
    true
}
