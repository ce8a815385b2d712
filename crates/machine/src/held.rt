// What is held: whether it is in range.
ghost use Rattle.std.specs.Prelude.{◌≡◌, ◌≤◌, length};
ghost use Rattle.meaning.specs.Bounds.{most_places, most_values};
ghost use Rattle.ledger.specs.Layout.{most_decisions, most_marks, rows_size, opening_place, held_size};
ghost use Rattle.ledger.specs.Memory.{head_right, room_right, held_right};

use crate::{layout, lists, rows};
use kinds::Mask;
use rules::Size;

// Whether the sizes held are those handed in, both counts are in range, and zeros follow.
#[tactic(auto, unfolding(ledger::specs::Memory::head_right))]
pub(crate) fn head_right(places: usize, size: Size, held: &[u32]) -> bool
    requires { opening_place ≤ length held.now }
    ensures { result ≡ head_right places size.states size.values size.start.0 held.now }
{
    held[layout::PLACES] as usize == places
        && held[layout::STATES] as usize == size.states
        && held[layout::VALUES] as usize == size.values
        && held[layout::START] == u32::from(size.start.0)
        && held[layout::DECISIONS] <= layout::MOST_DECISIONS
        && held[layout::MARKS] <= layout::MOST_MARKS
        && lists::all_below(&held[layout::SPARE..layout::ROWS], 1)
}

// Whether the rows hold so many decisions and marks, in range, and zeros behind them.
#[tactic(auto, unfolding(ledger::specs::Memory::room_right))]
pub(crate) fn room_right(
    places: usize,
    values: usize,
    decisions: u32,
    marks: u32,
    rows: &[u32],
) -> bool
    requires { (values ≤ most_values) × (decisions ≤ most_decisions) × (marks ≤ most_marks) × (length rows.now ≡ rows_size) }
    ensures { result ≡ room_right places values decisions marks rows.now }
{
    let count = (decisions + marks) as usize;
    rows::rows_right(places, values, count, rows)
        && rows::marks_among(count, rows) == marks
        && lists::all_below(&rows[count * layout::ROW_SIZE..], 1)
}

// Whether all that is held is in range.
#[tactic(auto, unfolding(ledger::specs::Memory::held_right, ledger::specs::Memory::rows_of))]
pub(crate) fn held_right(places: usize, size: Size, held: &[u32]) -> bool
    requires { (places ≤ most_places) × (size.values ≤ most_values) × (length held.now ≡ held_size places) }
    ensures { result ≡ held_right places size.states size.values size.start.0 held.now }
{
    head_right(places, size, held)
        && room_right(
            places,
            size.values,
            held[layout::DECISIONS],
            held[layout::MARKS],
            &held[layout::ROWS..layout::OPENING],
        )
        && lists::all_below(
            &held[layout::OPENING..layout::OPENING + places],
            Mask::bound(size.values),
        )
}
