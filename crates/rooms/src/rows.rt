// Rows of numbers, one for each state.
ghost use Rattle.std.specs.Prelude.{◌≡◌, suc, ◌+◌, ◌-◌, ◌≤◌, min, max, length, get_or};
ghost use Rattle.meaning.specs.Bounds.{top};
ghost use Rattle.rules.specs.Answers.{zeros};
ghost use Rattle.rooms.specs.Tables.{blanked, copied, Filled, Low, Matches};

use rules::bounds::TOP;

// What is left of a number; 0, where less is there than is taken.
pub fn less(a: u32, b: u32) -> u32
    ensures { result ≡ a - b }
{
    a.saturating_sub(b)
}

// One number in the first places of a row; a row that has fewer stays.
#[tactic(auto, unfolding(crate::specs::Tables::blanked))]
pub fn blank(count: usize, number: u32, row: &mut [u32])
    ensures { row.new ≡ blanked count number row.old }
{
    if row.len() < count {
        return;
    }
    row[..count].fill(number);
}

// The first places of a row, as another has them; where one of the two has fewer, the row stays.
#[tactic(auto, unfolding(crate::specs::Tables::copied))]
pub fn copy(count: usize, from: &[u32], row: &mut [u32])
    ensures { row.new ≡ copied count from.now row.old }
{
    if from.len() < count || row.len() < count {
        return;
    }
    row[..count].copy_from_slice(&from[..count]);
}

// Whether a row of needs is another one with a rise, one more than the top at most.
pub(crate) fn risen(count: usize, rise: u32, from: &[u32], row: &[u32]) -> bool
    requires { (count ≤ length from.now) × (count ≤ length row.now) × (rise ≤ suc top) × Low count from.now }
    ensures { Matches (λ k. min (suc top) (get_or from.now k 0 + rise)) count row.now result }
{
    for j in 0..count {
        if row[j] != (TOP + 1).min(from[j] + rise) {
            return false;
        }
    }
    true
}

// A row of needs, none below the least that the limit of the step into it makes, and loaded by itself.
pub(crate) fn settle(count: usize, least: u32, row: &mut [u32], needs: &mut [u32])
    requires { (count ≤ length row.old) × (count ≤ length needs.old) }
    ensures { Filled (λ k. max (get_or row.old k 0) least) count row.old row.new × Filled (λ k. max (get_or row.old k 0) least) count needs.old needs.new }
{
    for n in 0..count {
        let need = row[n].max(least);
        row[n] = need;
        needs[n] = need;
    }
}

// Every number of a table becomes 0, in both halves at once: as one run, by `fill` too, it is made a call that takes a turn for each byte.
pub fn wipe(table: &mut [u32])
    ensures { table.new ≡ zeros table.old }
{
    let back = table.len() / 2;
    let count = table.len() - back;
    for at in 0..count {
        let other = back + at;
        table[at] = 0;
        table[other] = 0;
    }
}
