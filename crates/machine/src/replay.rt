// The places that a session has come to: its opening, with the standing decisions applied.
ghost use Rattle.std.specs.Prelude.{◌≡◌, true, [], ◌∷◌, ◌+◌, ◌≤◌, length, take};
ghost use Rattle.meaning.specs.Meaning.{places as places_of, decides};
ghost use Rattle.ledger.specs.Sessions.{opening, standing, places_by};
ghost use Rattle.ledger.specs.Layout.{most_entries, rows_size};
ghost use Rattle.ledger.specs.Memory.{entry_of, entries_at, entries_of, opening_at, opening_of, all_below, held_in};
ghost use Rattle.machine.specs.Inner.{RowSafe, RowsSafe, Replayable};

use crate::rows::{Kind, NoKind, Row};
use crate::{layout, lists};
use kinds::Mask;

// One entry applied: the meet of both masks, or the smaller of both limits; a mark changes nothing.
fn apply(row: Row, masks: &mut [u16], limits: &mut [u32])
    requires { RowSafe row.kind row.place row.amount (length masks.old) (length limits.old) }
    ensures { places_of masks.new limits.new ≡ decides (places_of masks.old limits.old) (standing (entry_of row.kind row.place row.amount ∷ [])) }
{
    let place = row.place as usize;
    match Kind::try_from(row.kind) {
        Ok(Kind::Keep) => {
            masks[place] = Mask(masks[place]).meet(Mask(row.amount as u16)).0;
        }
        Ok(Kind::Limit) => {
            limits[place] = limits[place].min(row.amount);
        }
        Ok(Kind::Mark) => {}
        Err(NoKind) => {}
    }
}

// The first entries applied, the oldest first.
fn replay(count: usize, rows: &[u32], masks: &mut [u16], limits: &mut [u32])
    requires { (count ≤ most_entries) × (length rows.now ≡ rows_size) × RowsSafe count rows.now (length masks.old) (length limits.old) }
    ensures { places_of masks.new limits.new ≡ decides (places_of masks.old limits.old) (standing (entries_at count rows.now)) }
{
    for i in 0..count {
        apply(Row::at(i, rows), masks, limits);
    }
}

// The opening masks and limits, out of memory.
fn restore(places: usize, held: &[u32], masks: &mut [u16], limits: &mut [u32])
    requires { (length held.now ≡ places + places) × (length masks.old ≡ places) × (length limits.old ≡ places) × (all_below 65536 (take places held.now) ≡ true) }
    ensures { opening masks.new limits.new ≡ opening_at places held.now }
{
    lists::narrow(masks, &held[..places]);
    lists::copy(limits, &held[places..]);
}

// The masks and limits that what is held comes to.
pub(crate) fn come_to(places: usize, memory: &[u32], masks: &mut [u16], limits: &mut [u32])
    requires { Replayable places (held_in places memory.now) × (length masks.old ≡ places) × (length limits.old ≡ places) }
    ensures { places_of masks.new limits.new ≡ places_by (opening_of places (held_in places memory.now)) (standing (entries_of (held_in places memory.now))) }
{
    let front = places + layout::SHOWN;
    let held = &memory[front..];
    restore(places, &held[layout::OPENING..], masks, limits);
    let count = (held[layout::DECISIONS] + held[layout::MARKS]) as usize;
    replay(count, &held[layout::ROWS..layout::OPENING], masks, limits);
}
