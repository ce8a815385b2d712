// The entries that a session holds: one more, and back to the newest mark.
ghost use Rattle.std.specs.Prelude.{◌≡◌, ◌-◌, ◌≤◌, ◌<◌, ◌+◌, length, get_or};
ghost use Rattle.ledger.specs.Layout.{most_entries, rows_size};
ghost use Rattle.ledger.specs.Memory.{count_of, rows_of};
ghost use Rattle.session.specs.Inner.{Counted, pushed, mark_at, undone_at};

use machine::layout;
use machine::rows::{self, Row};

// Writes one more entry behind the others, and counts it.
pub(crate) fn push(held: &mut [u32], row: Row)
    requires { Counted held.old × (get_or held.old 4 0 + get_or held.old 5 0 < most_entries) }
    ensures { held.new ≡ pushed row.kind row.place row.amount held.old }
{
    let decisions = held[layout::DECISIONS];
    let marks = held[layout::MARKS];
    let mark = u32::from(rows::is_mark(row.kind));
    let at = layout::ROWS + ((decisions + marks) as usize) * layout::ROW_SIZE;
    held[at] = row.kind;
    held[at + 1] = row.place;
    held[at + 2] = row.amount;
    held[layout::DECISIONS] = decisions + (1 - mark);
    held[layout::MARKS] = marks + mark;
}

// The newest mark among the first entries.
fn mark_at(count: usize, rows: &[u32]) -> Option<usize>
    requires { (count ≤ most_entries) × (length rows.now ≡ rows_size) }
    ensures { result ≡ mark_at count rows.now }
{
    for i in (0..count).rev() {
        if rows::is_mark(rows[i * layout::ROW_SIZE]) {
            return Some(i);
        }
    }
    None
}

// The newest mark.
pub(crate) fn newest_mark(held: &[u32]) -> Option<usize>
    requires { Counted held.now }
    ensures { result ≡ mark_at (count_of held.now) (rows_of held.now) }
{
    let count = (held[layout::DECISIONS] + held[layout::MARKS]) as usize;
    mark_at(count, &held[layout::ROWS..layout::OPENING])
}

// The entries from that mark on become zeros, and both counts follow.
pub(crate) fn undo(held: &mut [u32], mark: usize)
    requires { Counted held.old × (mark < get_or held.old 4 0 + get_or held.old 5 0) × (1 ≤ get_or held.old 5 0) × (get_or held.old 5 0 ≤ mark + 1) }
    ensures { held.new ≡ undone_at mark held.old }
{
    let count = (held[layout::DECISIONS] + held[layout::MARKS]) as usize;
    let marks = held[layout::MARKS] - 1;
    let start = layout::ROWS + mark * layout::ROW_SIZE;
    let end = layout::ROWS + count * layout::ROW_SIZE;
    held[start..end].fill(0);
    held[layout::DECISIONS] = mark as u32 - marks;
    held[layout::MARKS] = marks;
}
