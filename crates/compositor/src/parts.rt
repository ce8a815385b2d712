// Parts of a pattern, and how they are put together.
ghost use Rattle.std.specs.Prelude.{◌≡◌, cond, ◌<◌};
ghost use Rattle.kinds.specs.Bits.{bit};
ghost use Rattle.patterns.specs.Line.{most_letters};
ghost use Rattle.compositor.specs.Inner.{link_to, letter_part, extended_to, Joined, or_part};

// As many letters as a pattern may have.
pub(crate) const MOST_LETTERS: usize = 32;

// What can follow each letter place: a set of letter places for each.
pub(crate) type Follow = [u32; MOST_LETTERS];

// What is kept of a pattern: the place after it in the text, the number of the next letter place, whether it matches the empty word,
// and the letter places that can read a first and a last letter.
#[derive(Clone, Copy)]
pub(crate) struct Part {
    pub at: usize,
    pub place: usize,
    pub null: bool,
    pub first: u32,
    pub last: u32,
}

// f if i is in the set c, and nothing otherwise. No method of u32 says it plainer.
pub(crate) fn pick(c: u32, i: usize, f: u32) -> u32
    requires { i < most_letters }
    ensures { result ≡ cond (bit c i) f 0 }
{
    if (c >> i) & 1 == 1 { f } else { 0 }
}

// Each place of f can follow each place of l.
#[tactic(auto, using(crate::proofs::Joining::link_more), unfolding(crate::specs::Inner::link_to))]
fn link(follow: &mut Follow, l: u32, f: u32)
    ensures { follow.new ≡ link_to follow.old l f most_letters }
{
    for (i, x) in follow.iter_mut().enumerate() {
        *x |= pick(l, i, f);
    }
}

// A letter at a place of its own; `at` is the place after it in the text.
pub(crate) fn letter_part(at: usize, place: usize) -> Part
    requires { place < most_letters }
    ensures { result ≡ letter_part place at }
{
    let m = 1u32 << place;
    Part {
        at,
        place: place + 1,
        null: false,
        first: m,
        last: m,
    }
}

// The same part with what stands after it: a bracket that closes a group, or `*`, `+` or `?`.
#[tactic(auto, unfolding(crate::specs::Inner::extended_to))]
pub(crate) fn extended(p: Part, at: usize, null: bool) -> Part
    ensures { result ≡ extended_to p at null }
{
    Part { at, null, ..p }
}

// The part once or more: its first places can follow its last ones.
pub(crate) fn repeated(p: Part, at: usize, null: bool, follow: &mut Follow) -> Part
    ensures { (result ≡ extended_to p at null) × (follow.new ≡ link_to follow.old p.last p.first most_letters) }
{
    link(follow, p.last, p.first);
    extended(p, at, null)
}

// One part and then another.
#[tactic(auto, unfolding(crate::specs::Inner::then_part))]
pub(crate) fn then_part(p: Part, q: Part, follow: &mut Follow) -> Part
    ensures { Joined p q follow.old follow.new result }
{
    link(follow, p.last, q.first);
    let first = if p.null { q.first } else { 0 };
    let last = if q.null { p.last } else { 0 };
    Part {
        at: q.at,
        place: q.place,
        null: p.null && q.null,
        first: p.first | first,
        last: q.last | last,
    }
}

// One part or another.
#[tactic(auto, unfolding(crate::specs::Inner::or_part))]
pub(crate) fn or_part(p: Part, q: Part) -> Part
    ensures { result ≡ or_part p q }
{
    Part {
        at: q.at,
        place: q.place,
        null: p.null || q.null,
        first: p.first | q.first,
        last: p.last | q.last,
    }
}
