// The backward pass by changes, for the planner: for each layer and each number of changes the row of needs, behind the limit of the step
// into it.
ghost use Rattle.std.specs.Prelude.{◌≡◌, true, false, suc, ◌+◌, ◌*◌, ◌-◌, ◌≤◌, ◌<◌, length};
ghost use Rattle.meaning.specs.Bounds.{most_places, most_states, most_values, most_changes, table_size};
ghost use Rattle.rooms.specs.Tables.{Filled, turned, need, rooms_by, Low, Laid, Bare, Serves, frame};
ghost use Rattle.rooms.specs.Changes.{near_best, near_needs, row_for, NearLevels, Beside, Spare, LowRow, Fewer, Finds, PlanSizes, NearRuns};

use crate::backward::BYTES;
use crate::{backward, rows, turn};
use kinds::{Mask, State, Value};
use ranks::arc::NONE;
use ranks::rank;
use rules::bounds;
use rules::bounds::TOP;

// The rows of a layer: one for each number of changes.
pub const ROWS: usize = (bounds::MOST_CHANGES as usize) + 1;

// A row from those of the next layer: by any value with the needs of one change less, by the drawn one with those of as many.
pub(crate) fn near_row(
    states: usize,
    values: usize,
    targets: &[u8],
    costs: &[u16],
    arcs: &[u32],
    mask: Mask,
    drawn: Value,
    fewer: &[u32],
    same: &[u32],
    row: &mut [u32],
)
    requires { (states ≤ most_states) × (values ≤ most_values) × (length targets.now ≡ table_size) × (length costs.now ≡ table_size) × (length fewer.now ≡ 256) × Low 256 fewer.now × Bare states fewer.now × (length same.now ≡ 256) × Low 256 same.now × (states ≤ length row.old) × (length arcs.now ≡ table_size → Serves (turned targets.now costs.now) states values arcs.now) }
    ensures { Filled (λ q. need (near_best (turned targets.now costs.now) (rooms_by fewer.now) (rooms_by same.now) values mask.0 drawn.0 q)) states row.old row.new }
{
    backward::make_row(states, values, targets, costs, arcs, mask, fewer, row);
    if usize::from(drawn) < values && mask.has(drawn) {
        backward::lessen(false, states, targets, costs, &[drawn], same, row);
    }
}

// Loads what the row of layer i for at most j changes is made of by a change: the row of the next layer for one change less. With none to
// make there is none, and what is loaded stays.
pub(crate) fn load_fewer(states: usize, i: usize, j: usize, work: &[u32], fewer: &mut [u32])
    requires { (states ≤ most_states) × (i ≤ most_places) × (j ≤ most_changes) × (row_for (i + 2) 0 * most_states ≤ length work.now) × (length fewer.old ≡ 256) }
    ensures { Fewer states i j work.now fewer.old fewer.new }
{
    if j == 0 {
        return;
    }
    let at = ((i + 1) * ROWS + (j - 1)) * bounds::MOST_STATES;
    let end = at + states;
    fewer[..states].copy_from_slice(&work[at..end]);
}

// The row of layer i for at most j changes, laid in the work table and loaded by itself.
pub(crate) fn lay_row(
    states: usize,
    values: usize,
    targets: &[u8],
    costs: &[u16],
    arcs: &[u32],
    mask: Mask,
    drawn: Value,
    least: u32,
    i: usize,
    j: usize,
    fewer: &mut [u32],
    needs: &mut [u32],
    work: &mut [u32],
)
    requires { (states ≤ most_states) × (values ≤ most_values) × (length targets.now ≡ table_size) × (length costs.now ≡ table_size) × (i ≤ most_places) × (j ≤ most_changes) × (row_for (i + 2) 0 * most_states ≤ length work.old) × (length fewer.old ≡ 256) × Spare states j fewer.old × (0 < j → LowRow states (row_for (i + 1) (j - 1)) work.old) × (length needs.old ≡ 256) × Low 256 needs.old × (length arcs.now ≡ table_size → Serves (turned targets.now costs.now) states values arcs.now) }
    ensures { Fewer states i j work.old fewer.old fewer.new × Laid (near_needs (turned targets.now costs.now) fewer.new needs.old values mask.0 drawn.0 least) states (row_for i j) work.old work.new × Filled (near_needs (turned targets.now costs.now) fewer.new needs.old values mask.0 drawn.0 least) states needs.old needs.new }
{
    load_fewer(states, i, j, work, fewer);
    let at = (i * ROWS + j) * bounds::MOST_STATES;
    let end = at + bounds::MOST_STATES;
    near_row(
        states,
        values,
        targets,
        costs,
        arcs,
        mask,
        drawn,
        fewer,
        needs,
        &mut work[at..end],
    );
    rows::settle(states, least, &mut work[at..end], needs);
}

// The rows of all layers for at most j changes, the last first. Those for fewer are there.
pub(crate) fn fill_level(
    states: usize,
    values: usize,
    targets: &[u8],
    costs: &[u16],
    arcs: &[u32],
    accepting: u64,
    masks: &[u16],
    limits: &[u32],
    drawn: &[u8],
    j: usize,
    work: &mut [u32],
)
    requires { PlanSizes states values targets.now costs.now masks.now limits.now drawn.now j work.old × (length arcs.now ≡ table_size → Serves (turned targets.now costs.now) states values arcs.now) × NearLevels (frame (turned targets.now costs.now) states values accepting) drawn.now masks.now limits.now j (suc (length masks.now)) work.old }
    ensures { NearLevels (frame (turned targets.now costs.now) states values accepting) drawn.now masks.now limits.now j 0 work.new × Beside states j work.old work.new }
{
    let mut fewer = [TOP + 1; BYTES];
    let mut needs = [TOP + 1; BYTES];
    let last = masks.len();
    backward::fill_last(
        states,
        accepting,
        backward::least_at(limits, last),
        last * ROWS + j,
        &mut needs,
        work,
    );
    for i in (0..last).rev() {
        let least = backward::least_at(limits, i);
        lay_row(
            states,
            values,
            targets,
            costs,
            arcs,
            Mask(masks[i]),
            Value(drawn[i]),
            least,
            i,
            j,
            &mut fewer,
            &mut needs,
            work,
        );
    }
}

// The rows of all layers for at most 0, 1, .. changes, up to the first number that the start has room with, or the most. Gives that
// number, where there is one.
pub(crate) fn fill_levels(
    states: usize,
    values: usize,
    targets: &[u8],
    costs: &[u16],
    arcs: &[u32],
    accepting: u64,
    start: State,
    spent: u32,
    masks: &[u16],
    limits: &[u32],
    drawn: &[u8],
    most: usize,
    work: &mut [u32],
) -> Option<usize>
    requires { PlanSizes states values targets.now costs.now masks.now limits.now drawn.now most work.old × (start.0 < states) × (length arcs.now ≡ table_size → Serves (turned targets.now costs.now) states values arcs.now) }
    ensures { Finds (frame (turned targets.now costs.now) states values accepting) drawn.now masks.now limits.now start.0 spent most work.old work.new result }
{
    for j in 0..most + 1 {
        fill_level(
            states, values, targets, costs, arcs, accepting, masks, limits, drawn, j, work,
        );
        let at = j * bounds::MOST_STATES + usize::from(start);
        if spent < (TOP + 1).saturating_sub(work[at]) {
            return Some(j);
        }
    }
    None
}

// Whether all that the planner's table is made of has its size.
pub(crate) fn fits(
    states: usize,
    values: usize,
    targets: &[u8],
    costs: &[u16],
    masks: &[u16],
    limits: &[u32],
    drawn: &[u8],
    most: usize,
    work: &[u32],
) -> bool
    ensures { (result ≡ true → PlanSizes states values targets.now costs.now masks.now limits.now drawn.now most work.now) × (result ≡ false → PlanSizes states values targets.now costs.now masks.now limits.now drawn.now most work.now → ⊥) }
{
    if bounds::MOST_PLACES < masks.len() || drawn.len() != masks.len() || ROWS <= most {
        return false;
    }
    let plain = (masks.len() + 1) * bounds::MOST_STATES;
    if work.len() != ROWS * plain {
        return false;
    }
    backward::fits(
        states,
        values,
        targets,
        costs,
        masks,
        limits,
        &work[..plain],
    )
}

// Something lent has not its size, or the start is no state.
#[derive(Clone, Copy, PartialEq, Eq)]
pub struct Misfit;

// The whole backward pass by changes: the needs of all layers for each number of changes up to the first that the start has room with,
// or the most. Gives that number, where there is one. Where something lent has not its size, tells that, and all stays.
pub fn fewest(
    states: usize,
    values: usize,
    targets: &[u8],
    costs: &[u16],
    accepting: u64,
    start: State,
    spent: u32,
    masks: &[u16],
    limits: &[u32],
    drawn: &[u8],
    most: usize,
    work: &mut [u32],
) -> Result<Option<usize>, Misfit>
    ensures { NearRuns states values targets.now costs.now accepting start.0 spent masks.now limits.now drawn.now most work.old work.new result }
{
    if !fits(
        states, values, targets, costs, masks, limits, drawn, most, work,
    ) || states <= usize::from(start)
    {
        return Err(Misfit);
    }
    let mut to = [0u8; bounds::TABLE_SIZE];
    let mut fee = [0u16; bounds::TABLE_SIZE];
    let mut arcs = [NONE; bounds::TABLE_SIZE];
    turn::turn(states, values, targets, costs, &mut to, &mut fee);
    rank::rank(states, values, targets, costs, &mut arcs);
    Ok(fill_levels(
        states, values, &to, &fee, &arcs, accepting, start, spent, masks, limits, drawn, most, work,
    ))
}
