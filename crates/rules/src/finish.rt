// The states from which a drawn roster can still finish, with so many values left. Sets of states are numbers, state q being bit q. Costs
// play no part, so the contracts have none.
ghost use Rattle.std.specs.Prelude.{◌≡◌, [], ◌^◌, ◌≤◌, ◌<◌, length};
ghost use Rattle.kinds.specs.Bits.{bit};
ghost use Rattle.meaning.specs.Lists.{Filled};
ghost use Rattle.meaning.specs.Bounds.{most_states};
ghost use Rattle.meaning.specs.Meaning.{arcs_of, rules_of};
ghost use Rattle.rules.specs.Inner.{next_by, into_set, finishing};

use crate::arcs::Arcs;
use crate::bounds;
use kinds::{State, Value};

// Whether a state is in a set.
pub fn holds(set: u64, q: State) -> bool
    ensures { result ≡ bit set q.0 }
{
    if bounds::MOST_STATES <= usize::from(q) {
        return false;
    }
    (set >> q.0) & 1 == 1
}

// The states that the arcs of a state lead to.
pub(crate) fn next_of(arcs: &Arcs<'_>, q: State) -> u64
    requires { q.0 < most_states }
    ensures { result ≡ next_by (arcs_of arcs.now.states arcs.now.values arcs.now.targets.now []) q.0 arcs.now.values }
{
    let mut next: u64 = 0;
    for v in 0..arcs.values {
        let to = arcs.target_of(q, Value(v as u8));
        if usize::from(to) < arcs.states {
            next |= 1u64 << to;
        }
    }
    next
}

// The same of each state.
pub(crate) fn all_next(arcs: &Arcs<'_>, next: &mut [u64])
    requires { length next.old ≡ arcs.now.states }
    ensures { Filled (λ q. next_by (arcs_of arcs.now.states arcs.now.values arcs.now.targets.now []) q arcs.now.values) arcs.now.states next.old next.new }
{
    for (q, to) in next.iter_mut().enumerate() {
        *to = next_of(arcs, State(q as u8));
    }
}

// The states that have an arc into a set. A bit that is carried along keeps the loop short: with 1 << q it took more than half as many
// instructions again.
pub(crate) fn into_set(next: &[u64], set: u64) -> u64
    requires { length next.now ≤ most_states }
    ensures { result ≡ into_set next.now set (length next.now) }
{
    let mut found: u64 = 0;
    let mut bit: u64 = 1;
    for to in next {
        if *to & set != 0 {
            found |= bit;
        }
        bit <<= 1;
    }
    found
}

// The layers: at k those states that can finish with k values left; and, given back, those that can with as many values as there are
// layers. Each is made of the arcs into the one before.
pub(crate) fn lay(arcs: &Arcs<'_>, accepting: u64, layers: &mut [u64]) -> u64
    requires { accepting < 2 ^ arcs.now.states }
    ensures { (result ≡ finishing (rules_of arcs.now.states arcs.now.values arcs.now.targets.now [] accepting) (length layers.new)) × Filled (finishing (rules_of arcs.now.states arcs.now.values arcs.now.targets.now [] accepting)) (length layers.new) layers.old layers.new }
{
    let mut next = [0u64; bounds::MOST_STATES];
    let next = &mut next[..arcs.states];
    all_next(arcs, next);
    let mut set = accepting;
    for layer in layers.iter_mut() {
        *layer = set;
        set = into_set(next, set);
    }
    set
}
