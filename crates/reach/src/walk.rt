// The walk along the first roster: at each place the smallest value that leaves a way to the end.
ghost use Rattle.std.specs.Prelude.{◌≡◌, ◌≤◌, ◌<◌, length};
ghost use Rattle.meaning.specs.Bounds.{top};
ghost use Rattle.rooms.specs.Tables.{Sizes};
ghost use Rattle.reach.specs.Turning.{net_in};
ghost use Rattle.reach.specs.Looks.{LowRows, Walks};

use crate::tables::Turned;
use kinds::{Mask, State};
use rooms::backward::BYTES;
use rooms::rows;
use rooms::turn::turned_at;
use rules::bounds;
use rules::bounds::TOP;

// Writes the first roster, and says whether there is one. None can be missing but at the first place, so nothing is written then.
pub(crate) fn walk(
    arcs: &Turned<'_>,
    start: State,
    spent: u32,
    masks: &[u16],
    work: &[u32],
    roster: &mut [u8],
) -> bool
    requires { Sizes arcs.now.states arcs.now.values arcs.now.targets.now arcs.now.costs.now masks.now masks.now work.now × LowRows arcs.now.states (length masks.now) work.now × (start.0 < arcs.now.states) × (spent ≤ top) × (length roster.old ≡ length masks.now) }
    ensures { Walks (net_in arcs.now) arcs.now.states arcs.now.values start.0 spent masks.now work.now roster.old roster.new result }
{
    let mut needs = [TOP + 1; BYTES];
    let mut q = start;
    let mut cost = spent;
    // the paper names this form: the inner loop breaks with the chosen value, or the label leaves both loops
    'places: {
        for i in 0..masks.len() {
            let row = (i + 1) * bounds::MOST_STATES;
            let end = row + bounds::MOST_STATES;
            rows::copy(arcs.states, &work[row..end], &mut needs);
            let mask = masks[i];
            let mut left = Mask(mask);
            let chosen = loop {
                let v = left.smallest();
                if arcs.values <= usize::from(v) {
                    break 'places false;
                }
                if arcs.leads_on(&needs, q, cost, v) {
                    break v;
                }
                left = left.rest();
            };
            roster[i] = chosen.0;
            let at = turned_at(q, chosen);
            cost += arcs.costs[at] as u32;
            q = State(arcs.targets[at]);
        }
        true
    }
}
