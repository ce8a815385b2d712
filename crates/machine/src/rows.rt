// The rows of the entries: read, tested and counted.
ghost use Rattle.std.specs.Prelude.{◌≡◌, ℕ, ◌+◌, ◌*◌, ◌≤◌, ◌<◌, cond, length, get_or};
ghost use Rattle.meaning.specs.Bounds.{most_values};
ghost use Rattle.ledger.specs.Sessions.{is_mark, marks};
ghost use Rattle.ledger.specs.Layout.{most_entries, row_size, rows_size};
ghost use Rattle.ledger.specs.Memory.{row_right, rows_right, entry_of, entries_at};
ghost use Rattle.machine.specs.Kinds.{IsKindOf};

use crate::layout;
use kinds::Mask;

// The kinds of an entry, with their numbers in memory.
#[derive(Clone, Copy, PartialEq, Eq)]
pub enum Kind {
    Keep = 1,
    Limit = 2,
    Mark = 3,
}

// Of a number that stands for no kind.
#[derive(Clone, Copy)]
pub struct NoKind;

impl TryFrom<u32> for Kind {
    type Error = NoKind;

    ghost try_from_gives = { IsKindOf };

    fn try_from(number: u32) -> Result<Kind, NoKind> {
        match number {
            1 => Ok(Kind::Keep),
            2 => Ok(Kind::Limit),
            3 => Ok(Kind::Mark),
            _ => Err(NoKind),
        }
    }
}

// An entry as memory holds it, in or out of range.
#[derive(Clone, Copy)]
pub struct Row {
    pub kind: u32,
    pub place: u32,
    pub amount: u32,
}

impl Row {
    // The row of entry i.
    pub(crate) fn at(i: usize, rows: &[u32]) -> Row
        requires { (i < most_entries) × (length rows.now ≡ rows_size) }
        ensures kind { result.kind ≡ get_or rows.now (i * row_size) 0 }
        ensures place { result.place ≡ get_or rows.now (i * row_size + 1) 0 }
        ensures amount { result.amount ≡ get_or rows.now (i * row_size + 2) 0 }
    {
        let at = i * layout::ROW_SIZE;
        Row {
            kind: rows[at],
            place: rows[at + 1],
            amount: rows[at + 2],
        }
    }

    // Whether the three numbers are in range.
    #[tactic(auto, using(crate::proofs::Ranges::few_bound), unfolding(ledger::specs::Memory::row_right))]
    pub(crate) fn right(self, places: usize, values: usize) -> bool
        requires { values ≤ most_values }
        ensures { result ≡ row_right places values self.kind self.place self.amount }
    {
        let inside = (self.place as usize) < places;
        match Kind::try_from(self.kind) {
            Ok(Kind::Keep) => inside && self.amount < Mask::bound(values),
            Ok(Kind::Limit) => inside,
            Ok(Kind::Mark) => self.place == 0 && self.amount == 0,
            Err(NoKind) => false,
        }
    }
}

// Whether the first entries are in range.
pub(crate) fn rows_right(places: usize, values: usize, count: usize, rows: &[u32]) -> bool
    requires { (values ≤ most_values) × (count ≤ most_entries) × (length rows.now ≡ rows_size) }
    ensures { result ≡ rows_right places values count rows.now }
{
    for i in 0..count {
        if !Row::at(i, rows).right(places, values) {
            return false;
        }
    }
    true
}

// Whether an entry of this kind is a mark: what decides nothing is one.
pub fn is_mark(kind: u32) -> bool
    ensures { (p x : ℕ) → cond result 1 0 ≡ is_mark (entry_of kind p x) }
{
    match Kind::try_from(kind) {
        Ok(Kind::Keep) => false,
        Ok(Kind::Limit) => false,
        Ok(Kind::Mark) => true,
        Err(NoKind) => true,
    }
}

// The number of marks among the first entries.
pub(crate) fn marks_among(count: usize, rows: &[u32]) -> u32
    requires { (count ≤ most_entries) × (length rows.now ≡ rows_size) }
    ensures { result ≡ marks (entries_at count rows.now) }
{
    let mut found: u32 = 0;
    for i in 0..count {
        found += u32::from(is_mark(rows[i * layout::ROW_SIZE]));
    }
    found
}
