// The two passes together, from any state and with any cost spent.
ghost use Rattle.std.specs.Prelude.{◌≡◌, ◌≤◌, ◌<◌, length};
ghost use Rattle.meaning.specs.Bounds.{table_size, top};
ghost use Rattle.reach.specs.Looks.{Vacant};
ghost use Rattle.reach.specs.Whole.{Order, FilterRuns, FirstRuns};

use crate::tables::Turned;
use crate::{alone, forward, walk};
use kinds::{Mask, State, Value};
use ranks::arc::{NO_COST, NONE};
use ranks::rank;
use rooms::{backward, rows};
use rules::bounds;
use rules::bounds::TOP;

// Whether the start is a state, the cost already spent is one, and the slice to write has a number for each place.
pub(crate) fn in_order(states: usize, start: State, spent: u32, count: usize, out: usize) -> bool
    ensures { Order states start.0 spent count out result }
{
    if states <= usize::from(start) || TOP < spent {
        return false;
    }
    out == count
}

// As many places with every value as make the rows worth their making.
const ENOUGH: usize = 8;

// Whether rows are worth their making: with few values, or few places that have every value, they are not.
// Any answer is right, so none is promised.
pub(crate) fn worth(values: usize, masks: &[u16]) -> bool {
    if values <= 4 {
        return false;
    }
    let full = Mask::full(values).0;
    ENOUGH <= masks.iter().filter(|mask| **mask == full).count()
}

// The two passes, by the rows of arcs where there are tables for them: the rows out of each state, and those into each state, with no arc in
// them yet.
pub(crate) fn passes(
    states: usize,
    values: usize,
    targets: &[u8],
    costs: &[u16],
    accepting: u64,
    start: State,
    spent: u32,
    masks: &[u16],
    limits: &[u32],
    arcs: &mut [u32],
    into: &mut [u32],
    kept: &mut [u16],
    work: &mut [u32],
) -> Option<u32>
    requires { (start.0 < states) × (spent ≤ top) × (length kept.old ≡ length masks.now) × (length arcs.old ≡ length into.old) × Vacant into.old }
    ensures { FilterRuns states values targets.now costs.now accepting start.0 spent masks.now limits.now kept.old work.old kept.new work.new result }
{
    let mut to = [0u8; bounds::TABLE_SIZE];
    let mut fee = [0u16; bounds::TABLE_SIZE];
    if !backward::prepare(
        states, values, targets, costs, accepting, masks, limits, &mut to, &mut fee, arcs, work,
    ) {
        return None;
    }
    let mut rests = [NO_COST; bounds::MOST_STATES];
    rank::turn(states, arcs, &mut rests, into);
    let turned = Turned {
        states,
        values,
        targets: &to,
        costs: &fee,
    };
    let least = forward::pass(&turned, &rests, into, start, spent, masks, work, kept);
    rows::wipe(work);
    least
}

// The whole filter: the least cost, if a roster is allowed. Where something lent is not in order, all stays.
pub fn filter_from(
    states: usize,
    values: usize,
    targets: &[u8],
    costs: &[u16],
    accepting: u64,
    start: State,
    spent: u32,
    masks: &[u16],
    limits: &[u32],
    kept: &mut [u16],
    work: &mut [u32],
) -> Option<u32>
    ensures { FilterRuns states values targets.now costs.now accepting start.0 spent masks.now limits.now kept.old work.old kept.new work.new result }
{
    if !in_order(states, start, spent, masks.len(), kept.len()) {
        return None;
    }
    if !worth(values, masks) {
        return passes(
            states,
            values,
            targets,
            costs,
            accepting,
            start,
            spent,
            masks,
            limits,
            &mut [],
            &mut [],
            kept,
            work,
        );
    }
    let mut arcs = [NONE; bounds::TABLE_SIZE];
    let mut into = [NONE; bounds::TABLE_SIZE];
    passes(
        states, values, targets, costs, accepting, start, spent, masks, limits, &mut arcs,
        &mut into, kept, work,
    )
}

// As many numbers as the rows of arcs take, where they are worth their making.
pub(crate) fn rows_for(values: usize, masks: &[u16]) -> usize
    ensures { result ≤ table_size }
{
    if worth(values, masks) {
        bounds::TABLE_SIZE
    } else {
        0
    }
}

// The first roster with a value at a place, and whether there is one. Where something lent is not in order, all stays.
pub fn first_from(
    states: usize,
    values: usize,
    targets: &[u8],
    costs: &[u16],
    accepting: u64,
    start: State,
    spent: u32,
    masks: &[u16],
    limits: &[u32],
    place: usize,
    value: Value,
    roster: &mut [u8],
    work: &mut [u32],
) -> bool
    ensures { FirstRuns states values targets.now costs.now accepting start.0 spent masks.now limits.now place value.0 roster.old work.old roster.new work.new result }
{
    let count = masks.len();
    if !in_order(states, start, spent, count, roster.len()) {
        return false;
    }
    if count <= place {
        return false;
    }
    if bounds::MOST_PLACES < count {
        return false;
    }
    let mut room = [0u16; bounds::MOST_PLACES];
    let mut to = [0u8; bounds::TABLE_SIZE];
    let mut fee = [0u16; bounds::TABLE_SIZE];
    let mut table = [NONE; bounds::TABLE_SIZE];
    let own = &mut room[..count];
    alone::narrow(masks, place, value, own);
    let arcs = &mut table[..rows_for(values, own)];
    if !backward::prepare(
        states, values, targets, costs, accepting, own, limits, &mut to, &mut fee, arcs, work,
    ) {
        return false;
    }
    let turned = Turned {
        states,
        values,
        targets: &to,
        costs: &fee,
    };
    let found = walk::walk(&turned, start, spent, own, work, roster);
    rows::wipe(work);
    found
}
