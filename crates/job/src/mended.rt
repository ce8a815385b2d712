// What a planner tells, printed.
ghost use Rattle.std.specs.Prelude.{◌≡◌, cond, [], ◌∷◌, eqb, length};
ghost use Rattle.meaning.specs.Lists.{each};
ghost use Rattle.meaning.specs.Meaning.{places, rosters};
ghost use Rattle.rules.specs.Checks.{handed_in, rules_in};
ghost use Rattle.mending.specs.Mending.{mended};
ghost use Rattle.text.specs.Bytes.{tab};
ghost use Rattle.text.specs.Numbers.{decimal};
ghost use Rattle.text.specs.Writing.{Wrote};
ghost use Rattle.job.specs.Mend.{change_line, change_lines, roster_line, mended_text};
ghost use Rattle.job.specs.Inner.{Ready, Wished};

use crate::print::put_line;
use crate::show::DAYS;
use planner::mend;
use rules::{RuleSet, bounds};
use text::puts::{put_byte, put_number, put_word};

// A row of the work table for each layer and number of changes.
const LEVELS: usize = (bounds::MOST_CHANGES as usize) + 1;

const WORK_SIZE: usize = LEVELS * ((DAYS + 1) * bounds::MOST_STATES);

// The change line of one place, if its value is not the drawn one.
pub(crate) fn put_change(output: &mut [u8], at: usize, place: usize, drawn: u8, value: u8) -> usize
    ensures { Wrote output.old at (cond (eqb value drawn) [] (change_line place drawn value)) output.new result }
{
    if value == drawn {
        return at;
    }
    let past_word = put_word(output, at, b"change\t");
    let past_place = put_number(output, past_word, place);
    let past_tab = put_byte(output, past_place, b'\t');
    let past_drawn = put_number(output, past_tab, drawn as usize);
    put_line(output, past_drawn, b"\t", value as usize)
}

// The change lines of all places.
pub(crate) fn put_changes(output: &mut [u8], at: usize, drawn: &[u8], roster: &[u8]) -> usize
    requires { length drawn.now ≡ length roster.now }
    ensures { Wrote output.old at (change_lines 0 drawn.now roster.now) output.new result }
{
    let mut next = at;
    for i in 0..drawn.len() {
        next = put_change(output, next, i, drawn[i], roster[i]);
    }
    next
}

// A tab and a value.
pub(crate) fn put_value(output: &mut [u8], at: usize, value: u8) -> usize
    ensures { Wrote output.old at (tab ∷ decimal value) output.new result }
{
    let past_tab = put_byte(output, at, b'\t');
    put_number(output, past_tab, value as usize)
}

// The values of a roster, each behind a tab.
pub(crate) fn put_values(output: &mut [u8], at: usize, roster: &[u8]) -> usize
    ensures { Wrote output.old at (each (λ v. tab ∷ decimal v) roster.now) output.new result }
{
    let mut next = at;
    for value in roster {
        next = put_value(output, next, *value);
    }
    next
}

// The roster line.
pub(crate) fn put_roster(output: &mut [u8], at: usize, roster: &[u8]) -> usize
    ensures { Wrote output.old at (roster_line roster.now) output.new result }
{
    let past_word = put_word(output, at, b"roster");
    let past_values = put_values(output, past_word, roster);
    put_byte(output, past_values, b'\n')
}

// Mends, and prints the changes and the mended roster, or that there is none.
pub(crate) fn show_mended(
    days: usize,
    rules: &RuleSet<'_>,
    masks: &[u16],
    limits: &[u32],
    drawn: &[u8],
    most: u32,
    output: &mut [u8],
) -> usize
    requires { Ready (handed_in days rules.now) masks.now limits.now × Wished days rules.now.size.values drawn.now most }
    ensures { Wrote output.old 0 (mended_text drawn.now (mended drawn.now most (rosters (rules_in rules.now) rules.now.size.start.0 0 (places masks.now limits.now)))) output.new result }
{
    let wide = LEVELS * ((days + 1) * bounds::MOST_STATES);
    let mut roster_room = [0u8; DAYS];
    let mut work_room = [0u32; WORK_SIZE];
    let roster = &mut roster_room[..days];
    let work = &mut work_room[..wide];
    let Ok(changes) = mend(days, rules, masks, limits, drawn, most, roster, work) else {
        return put_word(output, 0, b"none\n");
    };
    let past_count = put_line(output, 0, b"changes\t", changes as usize);
    let past_changes = put_changes(output, past_count, drawn, roster);
    put_roster(output, past_changes, roster)
}
