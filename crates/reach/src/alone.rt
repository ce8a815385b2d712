// The masks of a first roster: one value alone at its place.
ghost use Rattle.std.specs.Prelude.{◌≡◌, ◌<◌, eqb, length, get_or, set};
ghost use Rattle.std.specs.Int.Bits.{bit_and};
ghost use Rattle.kinds.specs.Bits.{width, mask_of};

use kinds::{Mask, Value};

// The masks, with one value alone at one place.
pub(crate) fn narrow(masks: &[u16], place: usize, value: Value, own: &mut [u16])
    requires { (place < length masks.now) × (length own.old ≡ length masks.now) }
    ensures { own.new ≡ set masks.now place (bit_and (get_or masks.now place 0) (mask_of (λ u. eqb u value.0) width)) }
{
    own.copy_from_slice(masks);
    own[place] = Mask(masks[place]).meet(Mask::single(value)).0;
}
