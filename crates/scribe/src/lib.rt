// The writer of sheets.
#![tactic(auto)]

ghost use Rattle.std.specs.Prelude.{◌≡◌};
ghost use Rattle.rules.specs.Answers.{answer_of, carried};
ghost use Rattle.rules.specs.Checks.{rules_in};
ghost use Rattle.scribe.specs.Writing.{write_left, write_of};

mod lines;

use crate::lines::put_sheet;
use rules::{Answer, RuleSet};

// As long as a sheet is at the most.
pub const LONGEST_SHEET: usize = 18212;

// Writes the sheet of a rule set at the front of a buffer, and gives its length. It is measured first, by putting it where there is no room.
pub fn write_sheet(rules: &RuleSet<'_>, buffer: &mut [u8]) -> Result<usize, Answer>
    ensures { write_left (answer_of result) (carried result) buffer.new ≡ write_of (rules_in rules.now) rules.now.size.start.0 buffer.old }
{
    // not by RuleSet::checked, since a sheet has no number of places
    if !rules::size_right(rules.size) {
        return Err(Answer::WrongSize);
    }
    if !rules::tables_long(rules.targets, rules.costs) {
        return Err(Answer::WrongLength);
    }
    if !rules::rules_right(rules) {
        return Err(Answer::WrongTables);
    }
    let length = put_sheet(&mut buffer[..0], rules);
    if buffer.len() < length {
        return Err(Answer::ShortBuffer);
    }
    put_sheet(buffer, rules);
    Ok(length)
}
