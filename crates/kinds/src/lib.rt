// The kinds of number: a state's number, a value's number, and a mask of values.
#![tactic(auto)]

ghost use Rattle.std.specs.Prelude.{◌≡◌, ◌&&◌, ◌||◌, ◌^◌, min, eqb, ltb};
ghost use Rattle.kinds.specs.Bits.{width, bit, mask_of, smallest_of, rest_of};

// A state and a value are two kinds, so that one can't index where the other is meant.
#[derive(Clone, Copy, PartialEq, Eq)]
pub struct State(pub u8);

#[derive(Clone, Copy, PartialEq, Eq)]
pub struct Value(pub u8);

impl From<State> for usize {
    ghost from_gives = { λ q n. n ≡ q.0 };

    fn from(q: State) -> usize {
        q.0 as usize
    }
}

impl From<Value> for usize {
    ghost from_gives = { λ v n. n ≡ v.0 };

    fn from(v: Value) -> usize {
        v.0 as usize
    }
}

// A place's choices: value v is bit v.
#[derive(Clone, Copy, PartialEq, Eq)]
pub struct Mask(pub u16);

impl Mask {
    // As many values as a mask has room for.
    pub const WIDTH: u8 = 16;

    // A choice of nothing.
    pub const EMPTY: Mask = Mask(0);

    // One more than the largest mask of `values` values; of the width, where they are more.
    pub fn bound(values: usize) -> u32
        ensures { result ≡ 2 ^ min values width }
    {
        if (Mask::WIDTH as usize) <= values {
            return 1u32 << Mask::WIDTH;
        }
        1u32 << values
    }

    // A choice of everything, where there are `values` values.
    pub fn full(values: usize) -> Mask
        ensures { result.0 ≡ mask_of (λ u. ltb u values) width }
    {
        Mask((Mask::bound(values) - 1) as u16)
    }

    // A choice of one value; of nothing, where the mask has no room for it.
    pub fn single(v: Value) -> Mask
        ensures { result.0 ≡ mask_of (λ u. eqb u v.0) width }
    {
        Mask::EMPTY.put(v)
    }

    pub fn has(self, v: Value) -> bool
        ensures { result ≡ bit self.0 v.0 }
    {
        if Mask::WIDTH <= v.0 {
            return false;
        }
        (self.0 >> v.0) & 1 == 1
    }

    // Whether every value is one of `values` values.
    pub fn within(self, values: usize) -> bool
        ensures { result ≡ ltb self.0 (2 ^ values) }
    {
        (self.0 as u32) < Mask::bound(values)
    }

    // The values of both.
    pub fn meet(self, other: Mask) -> Mask
        ensures { result.0 ≡ mask_of (λ u. bit self.0 u && bit other.0 u) width }
    {
        Mask(self.0 & other.0)
    }

    // One value more; the same, where the mask has no room for it.
    pub fn put(self, v: Value) -> Mask
        ensures { result.0 ≡ mask_of (λ u. bit self.0 u || eqb u v.0) width }
    {
        if Mask::WIDTH <= v.0 {
            return self;
        }
        Mask(self.0 | (1u16 << v.0))
    }

    // The smallest value; the width, where there is none.
    pub fn smallest(self) -> Value
        ensures { result.0 ≡ smallest_of self.0 }
    {
        let zeros = u16::trailing_zeros(self.0) as u8;
        Value(zeros)
    }

    // All values but the smallest; none, where there is none.
    pub fn rest(self) -> Mask
        ensures { result.0 ≡ rest_of self.0 }
    {
        if self.0 == Mask::EMPTY.0 {
            return self;
        }
        Mask(self.0 & (self.0 - 1))
    }
}
