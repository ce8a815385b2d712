// The forward pass: the least cost at each state of a prefix that a roster goes on from, and the values that are kept.
ghost use Rattle.std.specs.Prelude.{◌≡◌, ◌&&◌, ◌||◌, suc, ◌+◌, ◌*◌, ◌-◌, ◌≤◌, ◌<◌, eqb, length, get_or, is_some};
ghost use Rattle.kinds.specs.Bits.{width, bit, mask_of};
ghost use Rattle.meaning.specs.Bounds.{most_places, most_states, most_values, table_size, top};
ghost use Rattle.rooms.specs.Tables.{Filled, choices, Sizes, need, rooms_by, Bare, Low};
ghost use Rattle.reach.specs.Turning.{net_in};
ghost use Rattle.reach.specs.Looks.{leads_on, joins, struck, lowest, live_of, LiveHeld, LowRows, Pushed, Swept, Keeps, Spread, Blank, Arrives, Pulled, Past, Opened, Stepped, Tells};

use crate::past;
use crate::tables::Turned;
use kinds::{Mask, State, Value};
use ranks::pull;
use rooms::backward::{BYTES, MOST_SPAN};
use rooms::rows;
use rooms::turn::turned_at;
use rules::bounds;
use rules::bounds::TOP;

// As many numbers as the slots of the past hold, a row each.
pub(crate) const PAST: usize = 512;

// The live states of a front, state q being bit q: those that it has a cost at. The bit is carried along, so that the loop stays a
// plain one: as 1 << q it was made a vector loop, whose constants every place had to load.
pub(crate) fn living(states: usize, front: &[u32]) -> u64
    requires { (states ≤ most_states) × (states ≤ length front.now) }
    ensures { result ≡ live_of states front.now }
{
    let mut live: u64 = 0;
    let mut bit: u64 = 1;
    for q in 0..states {
        if front[q] <= TOP {
            live = live | bit;
        }
        bit = bit << 1;
    }
    live
}

// The least costs, lowered by the arcs on one value.
pub(crate) fn push(states: usize, targets: &[u8], costs: &[u16], front: &[u32], onward: &mut [u32])
    requires { (states ≤ most_states) × (states ≤ length targets.now) × (states ≤ length costs.now) × (states ≤ length front.now) × (length onward.old ≡ 256) × Low states front.now }
    ensures { Pushed targets.now costs.now front.now states onward.old onward.new }
{
    for q in 0..states {
        let to = targets[q] as usize;
        let spent = front[q] + (costs[q] as u32);
        onward[to] = spent.min(onward[to]);
    }
}

impl Turned<'_> {
    // Whether the arc of a state on a value, with a cost spent, leaves a way to the end.
    pub(crate) fn leads_on(&self, needs: &[u32], q: State, spent: u32, v: Value) -> bool
        requires { (length needs.now ≡ 256) × (q.0 < most_states) × (spent ≤ suc top) × (v.0 < most_values) × Low 256 needs.now }
        ensures { result ≡ leads_on (net_in self.now) needs.now q.0 spent v.0 }
    {
        let at = turned_at(q, v);
        spent + (self.costs[at] as u32) + needs[self.targets[at] as usize] <= TOP
    }

    // The same of a state of the front.
    pub(crate) fn joins_at(&self, front: &[u32], needs: &[u32], q: State, v: Value) -> bool
        requires { (q.0 < most_states) × (v.0 < most_values) × (q.0 < length front.now) × (length needs.now ≡ 256) × (get_or front.now q.0 0 ≤ suc top) × Low 256 needs.now }
        ensures { result ≡ leads_on (net_in self.now) needs.now q.0 (get_or front.now q.0 0) v.0 }
    {
        let spent = front[usize::from(q)];
        self.leads_on(needs, q, spent, v)
    }
}

// The live states that are held, worked out first where they are not yet.
pub(crate) fn recalled(states: usize, front: &[u32], live: Option<u64>) -> u64
    requires { (states ≤ most_states) × (states ≤ length front.now) × LiveHeld states front.now live }
    ensures { result ≡ live_of states front.now }
{
    match live {
        Some(live) => live,
        None => living(states, front),
    }
}

// A live state whose arc leaves a way to the end, if there is one. A dead state need not be looked at: its cost is above every room.
pub(crate) fn support(
    arcs: &Turned<'_>,
    front: &[u32],
    live: u64,
    needs: &[u32],
    v: Value,
) -> Option<State>
    requires { (arcs.now.states ≤ length front.now) × (length needs.now ≡ 256) × (v.0 < most_values) × Low arcs.now.states front.now × (live ≡ live_of arcs.now.states front.now) × Low 256 needs.now }
    ensures { is_some result ≡ joins (net_in arcs.now) front.now needs.now v.0 arcs.now.states }
{
    // no `for`: the states that are left are the bits of a number, taken off one by one
    let mut left = live;
    while left != 0 {
        let q = State(u64::trailing_zeros(left) as u8);
        if arcs.joins_at(front, needs, q, v) {
            return Some(q);
        }
        left = left & (left - 1);
    }
    None
}

// Whether a value is kept. Its last support is tried first, since it mostly holds; only where it fails are the live states worked out,
// once a place, and looked through, and the one that they give is noted for the next place. A hint is no Option: each value would be
// tested twice.
pub(crate) fn supported(
    arcs: &Turned<'_>,
    front: &[u32],
    live: &mut Option<u64>,
    needs: &[u32],
    v: Value,
    hints: &mut [State],
) -> bool
    requires { (arcs.now.states ≤ length front.now) × (length needs.now ≡ 256) × (v.0 < most_values) × (length hints.old ≡ most_values) × Low arcs.now.states front.now × LiveHeld arcs.now.states front.now live.old × Low 256 needs.now }
    ensures { (result ≡ joins (net_in arcs.now) front.now needs.now v.0 arcs.now.states) × LiveHeld arcs.now.states front.now live.new }
{
    let at = usize::from(v);
    let hint = hints[at];
    if usize::from(hint) < arcs.states && arcs.joins_at(front, needs, hint, v) {
        return true;
    }
    let bits = recalled(arcs.states, front, *live);
    *live = Some(bits);
    match support(arcs, front, bits, needs, v) {
        Some(q) => {
            hints[at] = q;
            true
        }
        None => false,
    }
}

// A mask with a value more, if it is kept.
pub(crate) fn marked(kept: Mask, v: Value, on: bool) -> Mask
    ensures { result.0 ≡ mask_of (λ u. bit kept.0 u || (on && eqb u v.0)) width }
{
    if on { kept.put(v) } else { kept }
}

// A cost, one more than the top where it leaves no room.
pub(crate) fn strike(cost: u32, need: u32) -> u32
    requires { (cost ≤ suc top) × (need ≤ suc top) }
    ensures { result ≡ struck cost (suc top - need) }
{
    if cost + need <= TOP { cost } else { TOP + 1 }
}

// The front one place on. The least costs that it is made of are blanked in the same turns, for the next place.
pub(crate) fn advance(states: usize, needs: &[u32], front: &mut [u32], onward: &mut [u32])
    requires { (states ≤ most_states) × (states ≤ length needs.now) × (states ≤ length front.old) × (states ≤ length onward.old) × Low 256 needs.now × Low states onward.old }
    ensures { Filled (λ q. struck (get_or onward.old q 0) (rooms_by needs.now q)) states front.old front.new × Filled (λ q. suc top) states onward.old onward.new }
{
    for q in 0..states {
        front[q] = strike(onward[q], needs[q]);
        onward[q] = TOP + 1;
    }
}

// The least cost of a front. `pull::lowest` of ranks promises no more than that none is less.
pub(crate) fn cheapest(states: usize, front: &[u32]) -> u32
    requires { (states ≤ most_states) × (states ≤ length front.now) }
    ensures { result ≡ lowest front.now states }
{
    let mut least = TOP + 1;
    for q in 0..states {
        least = front[q].min(least);
    }
    least
}

// The look at one value: it is put into the mask if it is kept.
pub(crate) fn look(
    arcs: &Turned<'_>,
    front: &[u32],
    live: &mut Option<u64>,
    needs: &[u32],
    v: Value,
    kept: Mask,
    hints: &mut [State],
) -> Mask
    requires { (arcs.now.states ≤ length front.now) × (length needs.now ≡ 256) × (v.0 < most_values) × (length hints.old ≡ most_values) × Low arcs.now.states front.now × LiveHeld arcs.now.states front.now live.old × Low 256 needs.now }
    ensures { (result.0 ≡ mask_of (λ u. bit kept.0 u || (joins (net_in arcs.now) front.now needs.now v.0 arcs.now.states && eqb u v.0)) width) × LiveHeld arcs.now.states front.now live.new }
{
    let on = supported(arcs, front, live, needs, v, hints);
    marked(kept, v, on)
}

// The values of a mask that are kept.
pub(crate) fn keep(
    arcs: &Turned<'_>,
    mask: Mask,
    front: &[u32],
    needs: &[u32],
    hints: &mut [State],
) -> Mask
    requires { (arcs.now.states ≤ length front.now) × (length needs.now ≡ 256) × (length hints.old ≡ most_values) × Low arcs.now.states front.now × Low 256 needs.now }
    ensures { Keeps (net_in arcs.now) arcs.now.states (choices arcs.now.values mask.0) front.now needs.now result.0 }
{
    let mut unseen = mask.meet(Mask::full(arcs.values));
    let mut kept = Mask::EMPTY;
    let mut live = None;
    // no `for`: the values of a mask are taken off it one by one, by shift and and
    while unseen != Mask::EMPTY {
        let v = unseen.smallest();
        kept = look(arcs, front, &mut live, needs, v, kept, hints);
        unseen = unseen.rest();
    }
    kept
}

// The least costs one place on, lowered by the arcs on the values of a mask.
pub(crate) fn sweep(arcs: &Turned<'_>, mask: Mask, front: &[u32], onward: &mut [u32])
    requires { (arcs.now.states ≤ length front.now) × (length onward.old ≡ 256) × Low arcs.now.states front.now }
    ensures { Swept (net_in arcs.now) arcs.now.states (choices arcs.now.values mask.0) front.now onward.old onward.new }
{
    let mut unswept = mask.meet(Mask::full(arcs.values));
    // likewise
    while unswept != Mask::EMPTY {
        let v = unswept.smallest();
        let at = turned_at(State(0), v);
        let end = at + bounds::MOST_STATES;
        push(
            arcs.states,
            &arcs.targets[at..end],
            &arcs.costs[at..end],
            front,
            onward,
        );
        unswept = unswept.rest();
    }
}

// The least costs one place on by the rows of the arcs into each state, if they serve for the mask and no arc that they leave out could
// better them. Else the row is blank again.
pub(crate) fn pulled(
    states: usize,
    values: usize,
    mask: Mask,
    front: &[u32],
    rests: &[u32],
    into: &[u32],
    onward: &mut [u32],
) -> bool
    requires { (states ≤ most_states) × (values ≤ most_values) × (most_states ≤ length front.now) × (states ≤ length onward.old) × Low states front.now × Blank states onward.old }
    ensures { Pulled states values mask.0 front.now rests.now into.now onward.new result }
{
    if !pull::serves(values, mask, into) {
        return false;
    }
    let low = pull::pull(states, front, into, onward);
    if pull::settled(states, low, rests, onward) {
        return true;
    }
    rows::blank(states, TOP + 1, onward);
    false
}

// The least costs one place on: those of a slot with their rise, if its front and mask are these, which with equal masks they soon
// are; else by the looks. Says which.
pub(crate) fn gather(
    arcs: &Turned<'_>,
    rests: &[u32],
    into: &[u32],
    mask: Mask,
    slot: usize,
    front: &[u32],
    fronts: &[u32],
    onwards: &[u32],
    held: &[u16],
    onward: &mut [u32],
) -> bool
    requires { (slot < 8) × (most_states ≤ length front.now) × (length fronts.now ≡ 512) × (length onwards.now ≡ 512) × (length held.now ≡ 8) × (length onward.old ≡ 256) × Low arcs.now.states front.now × Blank arcs.now.states onward.old × Past (net_in arcs.now) arcs.now.states arcs.now.values fronts.now onwards.now held.now × (length into.now ≡ table_size → Arrives (net_in arcs.now) arcs.now.states arcs.now.values rests.now into.now) }
    ensures { Spread (net_in arcs.now) arcs.now.states (choices arcs.now.values mask.0) front.now onward.new }
{
    if let Some(rise) = past::rise_to(arcs.states, mask, slot, front, fronts, held) {
        let at = slot * bounds::MOST_STATES;
        let end = at + bounds::MOST_STATES;
        past::lift(arcs.states, rise, &onwards[at..end], onward);
        return true;
    }
    if !pulled(arcs.states, arcs.values, mask, front, rests, into, onward) {
        sweep(arcs, mask, front, onward);
    }
    false
}

// The slot of a place, and of the place a span before it.
pub(crate) fn slot_of(place: usize, span: usize) -> usize
    requires { (place ≤ most_places) × (span ≤ 8) }
    ensures { result < 8 }
{
    (place + MOST_SPAN - span) % MOST_SPAN
}

// The span to try at the next place: the same where it served, else the next one, round from 8 to 1.
pub(crate) fn span_after(found: bool, span: usize) -> usize
    requires { (1 ≤ span) × (span ≤ 8) }
    ensures { (1 ≤ result) × (result ≤ 8) }
{
    if found { span } else { span % MOST_SPAN + 1 }
}

// The least costs one place on, noted for the places after it. Gives the span to try at the next place.
pub(crate) fn spread(
    arcs: &Turned<'_>,
    rests: &[u32],
    into: &[u32],
    mask: Mask,
    place: usize,
    again: bool,
    span: usize,
    front: &[u32],
    onward: &mut [u32],
    fronts: &mut [u32],
    onwards: &mut [u32],
    held: &mut [u16],
) -> usize
    requires { (place ≤ most_places) × (1 ≤ span) × (span ≤ 8) × (most_states ≤ length front.now) × (length onward.old ≡ 256) × (length fronts.old ≡ 512) × (length onwards.old ≡ 512) × (length held.old ≡ 8) × Low arcs.now.states front.now × Blank arcs.now.states onward.old × Past (net_in arcs.now) arcs.now.states arcs.now.values fronts.old onwards.old held.old × (length into.now ≡ table_size → Arrives (net_in arcs.now) arcs.now.states arcs.now.values rests.now into.now) }
    ensures { (1 ≤ result) × (result ≤ 8) × Spread (net_in arcs.now) arcs.now.states (choices arcs.now.values mask.0) front.now onward.new × Past (net_in arcs.now) arcs.now.states arcs.now.values fronts.new onwards.new held.new }
{
    let like = slot_of(place, span);
    let found = gather(
        arcs, rests, into, mask, like, front, fronts, onwards, held, onward,
    );
    let after = span_after(found, span);
    if !past::to_note(found, again, span) {
        return after;
    }
    let slot = slot_of(place, 0);
    past::note(
        arcs.states,
        mask,
        slot,
        front,
        onward,
        fronts,
        onwards,
        held,
    );
    after
}

// The front before the first place: the start alone, at the cost already spent, if a roster goes on from there.
pub(crate) fn open_front(states: usize, start: State, spent: u32, need: u32, front: &mut [u32])
    requires { (start.0 < states) × (states ≤ length front.old) × (spent ≤ suc top) × (need ≤ suc top) }
    ensures { Opened states start.0 spent (suc top - need) front.new }
{
    rows::blank(states, TOP + 1, front);
    front[usize::from(start)] = strike(spent, need);
}

// One place: gives its kept mask, and moves the front one place on.
pub(crate) fn step(
    arcs: &Turned<'_>,
    rests: &[u32],
    into: &[u32],
    mask: Mask,
    place: usize,
    again: bool,
    row: &[u32],
    span: &mut usize,
    front: &mut [u32],
    needs: &mut [u32],
    onward: &mut [u32],
    hints: &mut [State],
    fronts: &mut [u32],
    onwards: &mut [u32],
    held: &mut [u16],
) -> Mask
    requires { (place ≤ most_places) × (arcs.now.states ≤ length row.now) × (1 ≤ span.old) × (span.old ≤ 8) × (most_states ≤ length front.old) × (length needs.old ≡ 256) × (length onward.old ≡ 256) × (length hints.old ≡ most_values) × (length fronts.old ≡ 512) × (length onwards.old ≡ 512) × (length held.old ≡ 8) × Low arcs.now.states front.old × Low arcs.now.states row.now × Bare arcs.now.states needs.old × Blank arcs.now.states onward.old × Past (net_in arcs.now) arcs.now.states arcs.now.values fronts.old onwards.old held.old × (length into.now ≡ table_size → Arrives (net_in arcs.now) arcs.now.states arcs.now.values rests.now into.now) }
    ensures { Stepped (net_in arcs.now) arcs.now.states (choices arcs.now.values mask.0) row.now front.old needs.old onward.old front.new needs.new onward.new result.0 × (1 ≤ span.new) × (span.new ≤ 8) × Past (net_in arcs.now) arcs.now.states arcs.now.values fronts.new onwards.new held.new }
{
    rows::copy(arcs.states, row, needs);
    let kept = keep(arcs, mask, front, needs, hints);
    *span = spread(
        arcs, rests, into, mask, place, again, *span, front, onward, fronts, onwards, held,
    );
    advance(arcs.states, needs, front, onward);
    kept
}

// Whether a place has the mask of the place before.
pub(crate) fn again(masks: &[u16], i: usize) -> bool
    requires { i < length masks.now }
{
    0 < i && masks[i] == masks[i - 1]
}

// The forward pass: writes the kept masks, and gives the least cost, if a roster is allowed. The rows of arcs stand beside the turned
// tables, and in no struct with them, which the check of borrows does not cover.
pub(crate) fn pass(
    arcs: &Turned<'_>,
    rests: &[u32],
    into: &[u32],
    start: State,
    spent: u32,
    masks: &[u16],
    work: &[u32],
    kept: &mut [u16],
) -> Option<u32>
    requires { Sizes arcs.now.states arcs.now.values arcs.now.targets.now arcs.now.costs.now masks.now masks.now work.now × LowRows arcs.now.states (length masks.now) work.now × (start.0 < arcs.now.states) × (spent ≤ top) × (length kept.old ≡ length masks.now) × (length into.now ≡ table_size → Arrives (net_in arcs.now) arcs.now.states arcs.now.values rests.now into.now) }
    ensures { Tells (net_in arcs.now) arcs.now.states arcs.now.values start.0 spent masks.now work.now kept.new result }
{
    let mut front = [0u32; bounds::MOST_STATES];
    let mut needs = [TOP + 1; BYTES];
    let mut onward = [0u32; BYTES];
    let mut hints = [State(0); bounds::MOST_VALUES];
    // Three arrays and no struct of them: it would be copied once it is made, in as many steps as it has bytes.
    let mut fronts = [0u32; PAST];
    let mut onwards = [0u32; PAST];
    let mut held = [0u16; MOST_SPAN];
    let need = work[usize::from(start)];
    open_front(arcs.states, start, spent, need, &mut front);
    rows::blank(arcs.states, TOP + 1, &mut onward);
    let mut span: usize = 1;
    for i in 0..masks.len() {
        let at = (i + 1) * bounds::MOST_STATES;
        let end = at + bounds::MOST_STATES;
        kept[i] = step(
            arcs,
            rests,
            into,
            Mask(masks[i]),
            i,
            again(masks, i),
            &work[at..end],
            &mut span,
            &mut front,
            &mut needs,
            &mut onward,
            &mut hints,
            &mut fronts,
            &mut onwards,
            &mut held,
        )
        .0;
    }
    let least = cheapest(arcs.states, &front);
    if least <= TOP { Some(least) } else { None }
}
