// A mending job: its decisions are taken, then it is mended by its last two lines, and printed.
ghost use Rattle.std.specs.Prelude.{◌+◌, ◌≤◌, length, drop};
ghost use Rattle.meaning.specs.Meaning.{places};
ghost use Rattle.rules.specs.Checks.{handed_in, rules_in};
ghost use Rattle.text.specs.Lines.{lines};
ghost use Rattle.text.specs.Writing.{Wrote};
ghost use Rattle.job.specs.Input.{most_days};
ghost use Rattle.job.specs.Mend.{read_wish, wish_text, mend};
ghost use Rattle.job.specs.Inner.{Ready, RulesRight};

use crate::mended::show_mended;
use crate::plan::asked_for;
use crate::print::put_line;
use crate::show::DAYS;
use crate::take::WrongLine;
use crate::wish::{Drawn, drawn_at, wish_at};
use rules::RuleSet;

// The last two lines of a mending job, whose decisions are taken.
pub(crate) fn mend_wish(
    text: &[u8],
    wish: Drawn,
    days: usize,
    rules: &RuleSet<'_>,
    masks: &[u16],
    limits: &[u32],
    output: &mut [u8],
) -> usize
    requires { Ready (handed_in days rules.now) masks.now limits.now × (wish.at ≤ length text.now) × (wish.number ≤ length text.now + 2) }
    ensures { Wrote output.old 0 (wish_text (rules_in rules.now) rules.now.size.start.0 (places masks.now limits.now) (read_wish days rules.now.size.values wish.number (lines (drop wish.at text.now)))) output.new result }
{
    let mut drawn_room = [0u8; DAYS];
    let drawn = &mut drawn_room[..days];
    match wish_at(text, wish.at, wish.number, rules.size.values, drawn) {
        Err(WrongLine(line)) => put_line(output, 0, b"job\t", line),
        Ok(most) => show_mended(days, rules, masks, limits, drawn, most, output),
    }
}

// The lines behind the days line of a mending job: the decisions, up to the drawn line, and then the wish.
pub(crate) fn carry_mend(
    text: &[u8],
    from: usize,
    days: usize,
    rules: &RuleSet<'_>,
    output: &mut [u8],
) -> usize
    requires { RulesRight rules.now × (1 ≤ days) × (days ≤ most_days) × (from ≤ length text.now) }
    ensures { Wrote output.old 0 (mend (rules_in rules.now) rules.now.size.start.0 days (lines (drop from text.now))) output.new result }
{
    let wish = drawn_at(text, from);
    match asked_for(&text[..wish.at], from, days, rules.size.values) {
        Err(WrongLine(line)) => put_line(output, 0, b"job\t", line),
        Ok(room) => mend_wish(
            text,
            wish,
            days,
            rules,
            &room.masks[..days],
            &room.limits[..days],
            output,
        ),
    }
}
