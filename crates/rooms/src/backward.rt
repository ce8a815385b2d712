// The backward pass: the needs of all layers, each behind the limit of the step into it. The need of a state is how far its room lies below
// the greatest; with no limit in the way it is what the rest of a roster costs at the least.
ghost use Rattle.std.specs.Prelude.{◌≡◌, ℕ, Some, true, cond, [], ◌∷◌, suc, ◌+◌, ◌*◌, ◌-◌, ◌≤◌, ◌<◌, min, max, length, get_or};
ghost use Rattle.kinds.specs.Bits.{bit};
ghost use Rattle.meaning.specs.Bounds.{most_places, most_states, most_values, table_size, top};
ghost use Rattle.rooms.specs.Tables.{Filled, turned, choices, best, need, asks, least_by, numbers_of, Values, rooms_by, Low, Lessens, up_to_none, before, frame, Layers, LowBehind, Laid, Outside, Clear, LikeLayer, Lays, Sizes, Fits, Prepares, Bare, Serves};

use crate::turn::turned_at;
use crate::{rows, turn};
use kinds::{Mask, State, Value};
use ranks::{pull, rank};
use rules::bounds;
use rules::bounds::TOP;

// As many numbers as a target byte can name.
pub const BYTES: usize = 256;

// The need after the last place.
pub(crate) fn ending(accepting: u64, q: State) -> u32
    requires { q.0 < most_states }
    ensures { result ≡ cond (bit accepting q.0) 0 (suc top) }
{
    if (accepting >> q.0) & 1 == 1 {
        0
    } else {
        TOP + 1
    }
}

// The row of the last layer.
pub(crate) fn ends(states: usize, accepting: u64, row: &mut [u32])
    requires { (states ≤ most_states) × (states ≤ length row.old) }
    ensures { Filled (λ q. cond (bit accepting q) 0 (suc top)) states row.old row.new }
{
    for q in 0..states {
        row[q] = ending(accepting, State(q as u8));
    }
}

// What a state needs by its arc on a value. The tables are lent each by itself, here and above: in a struct they are not known to lie apart
// from the row that is written, which takes up to a ninth more instructions.
pub(crate) fn need_by(targets: &[u8], costs: &[u16], needs: &[u32], q: State, v: Value) -> u32
    requires { (length targets.now ≡ table_size) × (length costs.now ≡ table_size) × (256 ≤ length needs.now) × Low 256 needs.now × (q.0 < most_states) × (v.0 < most_values) }
    ensures { result ≡ asks (turned targets.now costs.now) needs.now q.0 v.0 }
{
    let at = turned_at(q, v);
    needs[targets[at] as usize] + (costs[at] as u32)
}

// The least of a number and what some values need by a state's arcs on them. How many they are is known where it is compiled, so that the
// loop goes out.
pub(crate) fn least_by<const N: usize>(
    targets: &[u8],
    costs: &[u16],
    needs: &[u32],
    q: State,
    values: &[Value; N],
    was: u32,
) -> u32
    requires { (length targets.now ≡ table_size) × (length costs.now ≡ table_size) × (256 ≤ length needs.now) × Low 256 needs.now × (q.0 < most_states) × Values values.now }
    ensures { result ≡ least_by (turned targets.now costs.now) needs.now q.0 (numbers_of values.now) was }
{
    let mut least = was;
    for k in (0..N).rev() {
        least = need_by(targets, costs, needs, q, values[k]).min(least);
    }
    least
}

// A row lessened to what some values need, or filled with it, where it is the first: it is read and written once for all of them.
pub(crate) fn lessen<const N: usize>(
    first: bool,
    states: usize,
    targets: &[u8],
    costs: &[u16],
    values: &[Value; N],
    needs: &[u32],
    row: &mut [u32],
)
    requires { (states ≤ most_states) × (length targets.now ≡ table_size) × (length costs.now ≡ table_size) × Values values.now × (256 ≤ length needs.now) × Low 256 needs.now × (states ≤ length row.old) }
    ensures { Filled (λ q. least_by (turned targets.now costs.now) needs.now q (numbers_of values.now) (cond first (suc top) (get_or row.old q 0))) states row.old row.new }
{
    for q in 0..states {
        let was = if first { TOP + 1 } else { row[q] };
        row[q] = least_by(targets, costs, needs, State(q as u8), values, was);
    }
}

// The same. Whether nothing is in the row yet is written out at each call, so that it is not tested at every state.
pub(crate) fn lessen_by<const N: usize>(
    first: bool,
    states: usize,
    targets: &[u8],
    costs: &[u16],
    values: &[Value; N],
    needs: &[u32],
    row: &mut [u32],
)
    requires { (states ≤ most_states) × (length targets.now ≡ table_size) × (length costs.now ≡ table_size) × Values values.now × (256 ≤ length needs.now) × Low 256 needs.now × (states ≤ length row.old) }
    ensures { Lessens (turned targets.now costs.now) (rooms_by needs.now) states first (numbers_of values.now) row.old row.new }
{
    if first {
        lessen(true, states, targets, costs, values, needs, row);
    } else {
        lessen(false, states, targets, costs, values, needs, row);
    }
}

// A row lessened to what the last values of a mask need, three at most: the width stands for none, and nothing behind it counts. With Options
// for them a filter of 16 states takes 3 % more.
pub(crate) fn lessen_rest(
    first: bool,
    states: usize,
    targets: &[u8],
    costs: &[u16],
    v: Value,
    w: Value,
    x: Value,
    needs: &[u32],
    row: &mut [u32],
)
    requires { (states ≤ most_states) × (length targets.now ≡ table_size) × (length costs.now ≡ table_size) × (256 ≤ length needs.now) × Low 256 needs.now × (states ≤ length row.old) }
    ensures { Lessens (turned targets.now costs.now) (rooms_by needs.now) states first (up_to_none (v.0 ∷ (w.0 ∷ (x.0 ∷ [])))) row.old row.new }
{
    if Mask::WIDTH <= v.0 {
        if first {
            row[..states].fill(TOP + 1);
        }
        return;
    }
    if Mask::WIDTH <= w.0 {
        lessen_by(first, states, targets, costs, &[v], needs, row);
        return;
    }
    if Mask::WIDTH <= x.0 {
        lessen_by(first, states, targets, costs, &[w, v], needs, row);
        return;
    }
    lessen_by(first, states, targets, costs, &[x, w, v], needs, row);
}

// The row of a layer, from the needs of the next: the least that the mask's values need, four at a time.
pub(crate) fn fill_row(
    states: usize,
    values: usize,
    targets: &[u8],
    costs: &[u16],
    mask: Mask,
    needs: &[u32],
    row: &mut [u32],
)
    requires { (states ≤ most_states) × (values ≤ most_values) × (length targets.now ≡ table_size) × (length costs.now ≡ table_size) × (256 ≤ length needs.now) × Low 256 needs.now × (states ≤ length row.old) }
    ensures { Filled (λ q. need (best (turned targets.now costs.now) (rooms_by needs.now) q (choices values mask.0))) states row.old row.new }
{
    let mut first = true;
    let mut left = mask.meet(Mask::full(values));
    // no `for`: the values of a mask are taken off it, four at a time
    loop {
        let v = left.smallest();
        let second = left.rest();
        let w = second.smallest();
        let third = second.rest();
        let x = third.smallest();
        let fourth = third.rest();
        if fourth == Mask::EMPTY {
            lessen_rest(first, states, targets, costs, v, w, x, needs, row);
            return;
        }
        let y = fourth.smallest();
        lessen_by(first, states, targets, costs, &[y, x, w, v], needs, row);
        first = false;
        left = fourth.rest();
    }
}

// What every state of layer i needs at the least, by the limit of the step into it.
pub(crate) fn least_at(limits: &[u32], i: usize) -> u32
    requires { i ≤ length limits.now }
    ensures { result ≡ top - before limits.now i }
{
    if i == 0 {
        return 0;
    }
    TOP.saturating_sub(limits[i - 1])
}

// The row of layer i, laid as that of the layer `like` with a rise, behind the limit of the step into it, and loaded by itself.
pub(crate) fn lay_like(
    states: usize,
    like: usize,
    rise: u32,
    least: u32,
    i: usize,
    needs: &mut [u32],
    work: &mut [u32],
)
    requires { (states ≤ most_states) × (length needs.old ≡ 256) × (i < like) × (like ≤ most_places) × (like * most_states + most_states ≤ length work.old) × (rise ≤ suc top) × LowBehind states i like work.old }
    ensures { Laid (λ q. max least (min (suc top) (get_or work.old (like * most_states + q) 0 + rise))) states i work.old work.new × Filled (λ q. max least (min (suc top) (get_or work.old (like * most_states + q) 0 + rise))) states needs.old needs.new }
{
    let from = like * bounds::MOST_STATES;
    let at = i * bounds::MOST_STATES;
    for k in 0..states {
        let need = least.max((TOP + 1).min(work[from + k] + rise));
        work[at + k] = need;
        needs[k] = need;
    }
}

// The row of a layer, from the needs of the next: by the rows of arcs where they serve, else value by value.
pub(crate) fn make_row(
    states: usize,
    values: usize,
    targets: &[u8],
    costs: &[u16],
    arcs: &[u32],
    mask: Mask,
    needs: &[u32],
    row: &mut [u32],
)
    requires { (states ≤ most_states) × (values ≤ most_values) × (length targets.now ≡ table_size) × (length costs.now ≡ table_size) × (length needs.now ≡ 256) × Low 256 needs.now × Bare states needs.now × (states ≤ length row.old) × (length arcs.now ≡ table_size → Serves (turned targets.now costs.now) states values arcs.now) }
    ensures { Filled (λ q. need (best (turned targets.now costs.now) (rooms_by needs.now) q (choices values mask.0))) states row.old row.new }
{
    if pull::serves(values, mask, arcs) {
        pull::pull(states, needs, arcs, row);
        return;
    }
    fill_row(states, values, targets, costs, mask, needs, row);
}

// The row of layer i, likewise: from the needs of the next.
pub(crate) fn fill_layer(
    states: usize,
    values: usize,
    targets: &[u8],
    costs: &[u16],
    arcs: &[u32],
    mask: Mask,
    least: u32,
    i: usize,
    needs: &mut [u32],
    work: &mut [u32],
)
    requires { (states ≤ most_states) × (values ≤ most_values) × (length targets.now ≡ table_size) × (length costs.now ≡ table_size) × (length needs.old ≡ 256) × Low 256 needs.old × Bare states needs.old × (i ≤ most_places) × (i * most_states + most_states ≤ length work.old) × (length arcs.now ≡ table_size → Serves (turned targets.now costs.now) states values arcs.now) }
    ensures { Laid (λ q. max (need (best (turned targets.now costs.now) (rooms_by needs.old) q (choices values mask.0))) least) states i work.old work.new × Filled (λ q. max (need (best (turned targets.now costs.now) (rooms_by needs.old) q (choices values mask.0))) least) states needs.old needs.new }
{
    let at = i * bounds::MOST_STATES;
    let end = at + bounds::MOST_STATES;
    make_row(
        states,
        values,
        targets,
        costs,
        arcs,
        mask,
        needs,
        &mut work[at..end],
    );
    rows::settle(states, least, &mut work[at..end], needs);
}

// The row of the last layer, likewise.
pub(crate) fn fill_last(
    states: usize,
    accepting: u64,
    least: u32,
    i: usize,
    needs: &mut [u32],
    work: &mut [u32],
)
    requires { (states ≤ most_states) × (length needs.old ≡ 256) × (i * most_states + most_states ≤ length work.old) }
    ensures { Laid (λ q. max (cond (bit accepting q) 0 (suc top)) least) states i work.old work.new × Filled (λ q. max (cond (bit accepting q) 0 (suc top)) least) states needs.old needs.new }
{
    let at = i * bounds::MOST_STATES;
    let end = at + bounds::MOST_STATES;
    ends(states, accepting, &mut work[at..end]);
    rows::settle(states, least, &mut work[at..end], needs);
}

// How far apart two layers may lie of which one is laid as the other was.
pub const MOST_SPAN: usize = 8;

// A state that has room; the first one, where there is none.
pub(crate) fn roomy(states: usize, needs: &[u32]) -> usize
    requires { (states ≤ most_states) × (states ≤ length needs.now) }
    ensures { result < most_states }
{
    needs[..states]
        .iter()
        .position(|need| *need <= TOP)
        .unwrap_or(0)
}

// How much more a state with room needs than in the row behind an earlier laid layer.
pub(crate) fn rise_from(states: usize, like: usize, needs: &[u32], work: &[u32]) -> u32
    requires { (states ≤ most_states) × (length needs.now ≡ 256) × Low 256 needs.now × (like < most_places) × ((like + 1) * most_states + most_states ≤ length work.now) }
    ensures { result ≤ suc top }
{
    let q = roomy(states, needs);
    let at = (like + 1) * bounds::MOST_STATES + q;
    needs[q].saturating_sub(work[at])
}

// Whether the least need that another layer was cut at is out of the way, once that layer has risen: it has no limit, or that need has not
// risen above the one that comes now.
pub(crate) fn clear_of(least: u32, other: u32, rise: u32) -> bool
    requires { (other ≤ suc top) × (rise ≤ suc top) }
    ensures { result ≡ true → Clear least other rise }
{
    other == 0 || other + rise <= least
}

// How far the needs of layer i lie above those of the layer `like`, if they are those with a rise: one mask leads from both, what lies behind
// them differs by the rise alone, and the limit of `like` is out of the way.
pub(crate) fn rise_to(
    states: usize,
    masks: &[u16],
    limits: &[u32],
    least: u32,
    i: usize,
    like: usize,
    needs: &[u32],
    work: &[u32],
) -> Option<u32>
    requires { (states ≤ most_states) × (least ≡ top - before limits.now i) × (i < like) × (like < length masks.now) × (length masks.now ≤ most_places) × (length limits.now ≡ length masks.now) × (length needs.now ≡ 256) × Low 256 needs.now × ((like + 1) * most_states + most_states ≤ length work.now) × LowBehind states i (length masks.now) work.now }
    ensures { (rise : ℕ) → result ≡ Some rise → LikeLayer states rise masks.now limits.now i like needs.now work.now }
{
    if masks[i] != masks[like] {
        return None;
    }
    let rise = rise_from(states, like, needs, work);
    if !clear_of(least, least_at(limits, like), rise) {
        return None;
    }
    let at = (like + 1) * bounds::MOST_STATES;
    let end = at + bounds::MOST_STATES;
    if rows::risen(states, rise, &work[at..end], needs) {
        return Some(rise);
    }
    None
}

// Lays layer i: as the layer that lies a span behind it, if they are alike, which with equal masks they soon are; else from the next
// row. Gives the span to try at the layer before: the same where it served, else the next one, round from 8 to 1.
pub(crate) fn lay(
    states: usize,
    values: usize,
    targets: &[u8],
    costs: &[u16],
    arcs: &[u32],
    masks: &[u16],
    limits: &[u32],
    i: usize,
    span: usize,
    needs: &mut [u32],
    work: &mut [u32],
) -> usize
    requires { Sizes states values targets.now costs.now masks.now limits.now work.old × (i < length masks.now) × (1 ≤ span) × (span ≤ 8) × (length needs.old ≡ 256) × Low 256 needs.old × LowBehind states i (length masks.now) work.old × Bare states needs.old × (length arcs.now ≡ table_size → Serves (turned targets.now costs.now) states values arcs.now) }
    ensures { (1 ≤ result) × (result ≤ 8) × Lays (turned targets.now costs.now) states values masks.now limits.now i needs.old work.old needs.new work.new }
{
    let least = least_at(limits, i);
    let like = i + span;
    if like < masks.len() {
        if let Some(rise) = rise_to(states, masks, limits, least, i, like, needs, work) {
            lay_like(states, like, rise, least, i, needs, work);
            return span;
        }
    }
    fill_layer(
        states,
        values,
        targets,
        costs,
        arcs,
        Mask(masks[i]),
        least,
        i,
        needs,
        work,
    );
    span % MOST_SPAN + 1
}

// The rows of all layers, the last first.
pub(crate) fn fill_needs(
    states: usize,
    values: usize,
    targets: &[u8],
    costs: &[u16],
    arcs: &[u32],
    accepting: u64,
    masks: &[u16],
    limits: &[u32],
    work: &mut [u32],
)
    requires { Sizes states values targets.now costs.now masks.now limits.now work.old × (length arcs.now ≡ table_size → Serves (turned targets.now costs.now) states values arcs.now) }
    ensures { Layers (frame (turned targets.now costs.now) states values accepting) masks.now limits.now 0 work.new × Outside states (suc (length masks.now)) work.old work.new }
{
    let mut needs = [TOP + 1; BYTES];
    let last = masks.len();
    fill_last(
        states,
        accepting,
        least_at(limits, last),
        last,
        &mut needs,
        work,
    );
    let mut span: usize = 1;
    for i in (0..last).rev() {
        span = lay(
            states, values, targets, costs, arcs, masks, limits, i, span, &mut needs, work,
        );
    }
}

// Whether all that is lent has its size.
pub(crate) fn fits(
    states: usize,
    values: usize,
    targets: &[u8],
    costs: &[u16],
    masks: &[u16],
    limits: &[u32],
    work: &[u32],
) -> bool
    ensures { Fits states values targets.now costs.now masks.now limits.now work.now result }
{
    states <= bounds::MOST_STATES
        && values <= bounds::MOST_VALUES
        && targets.len() == bounds::TABLE_SIZE
        && costs.len() == bounds::TABLE_SIZE
        && masks.len() != 0
        && masks.len() <= bounds::MOST_PLACES
        && limits.len() == masks.len()
        && work.len() == (masks.len() + 1) * bounds::MOST_STATES
}

// The whole backward pass: the tables turned, the arcs in rows by rising cost, if there is a table for them, and the needs of all layers. Where something lent has not its size, all stays; says which.
pub fn prepare(
    states: usize,
    values: usize,
    targets: &[u8],
    costs: &[u16],
    accepting: u64,
    masks: &[u16],
    limits: &[u32],
    to: &mut [u8],
    fee: &mut [u16],
    arcs: &mut [u32],
    work: &mut [u32],
) -> bool
    ensures { Prepares states values targets.now costs.now accepting masks.now limits.now to.old fee.old arcs.old work.old to.new fee.new arcs.new work.new result }
{
    if !fits(states, values, targets, costs, masks, limits, work)
        || to.len() != bounds::TABLE_SIZE
        || fee.len() != bounds::TABLE_SIZE
    {
        return false;
    }
    turn::turn(states, values, targets, costs, to, fee);
    rank::rank(states, values, targets, costs, arcs);
    fill_needs(
        states, values, to, fee, arcs, accepting, masks, limits, work,
    );
    true
}
