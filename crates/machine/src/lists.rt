// Lists of numbers: tested and copied whole.
ghost use Rattle.std.specs.Prelude.{◌≡◌, true, length};
ghost use Rattle.ledger.specs.Memory.{all_below};
ghost use Rattle.machine.specs.Copied.{copied};

// Whether every number is below the bound.
#[tactic(auto, unfolding(ledger::specs::Memory::all_below))]
pub(crate) fn all_below(s: &[u32], bound: u32) -> bool
    ensures { result ≡ all_below bound s.now }
{
    s.iter().all(|x| *x < bound)
}

// One list over another of the same length. By index: copy_from_slice becomes a call of memmove, and the archive for C is to need memcpy and
// memset alone (docs/C.md).
pub fn copy(to: &mut [u32], from: &[u32])
    ensures { to.new ≡ copied to.old from.now }
{
    if to.len() != from.len() {
        return;
    }
    for k in 0..from.len() {
        to[k] = from[k];
    }
}

// Masks over as many numbers. By index, since a proof follows no writes through iter_mut under zip.
pub fn widen(to: &mut [u32], from: &[u16])
    ensures { to.new ≡ copied to.old from.now }
{
    if to.len() != from.len() {
        return;
    }
    for j in 0..from.len() {
        to[j] = u32::from(from[j]);
    }
}

// Numbers that are masks over as many masks.
pub(crate) fn narrow(to: &mut [u16], from: &[u32])
    requires { (length to.old ≡ length from.now) × (all_below 65536 from.now ≡ true) }
    ensures { to.new ≡ from.now }
{
    for i in 0..from.len() {
        to[i] = from[i] as u16;
    }
}
