// The reader of patterns: a pattern on one line becomes a sheet.
#![tactic(auto)]

ghost use Rattle.std.specs.Prelude.{◌≡◌, ◌≤◌, MatchOption};
ghost use Rattle.meaning.specs.Bounds.{most_values};
ghost use Rattle.patterns.specs.Line.{read_line, unlawful};
ghost use Rattle.patterns.specs.Outcome.{count_right, pattern_of};
ghost use Rattle.compositor.specs.Leaving.{left_by};
ghost use Rattle.compositor.specs.Inner.{LineAt};

mod fill;
mod letters;
mod met;
mod parts;
mod reader;
mod states;

use crate::fill::{accepting_of, fill, free};
use crate::letters::note_letters;
use crate::parts::MOST_LETTERS;
use crate::reader::read_group;
use crate::states::Automaton;
use kinds::State;
use rules::{Answer, Outline, Size, bounds};

// The longest line, and the deepest group.
const MOST_BYTES: usize = 256;

const MOST_DEPTH: usize = 8;

// Whether V is in range: else answer 1.
#[tactic(auto, unfolding(patterns::specs::Outcome::count_right))]
fn count_right(values: usize) -> bool
    ensures { result ≡ count_right values }
{
    1 <= values && values <= bounds::MOST_VALUES
}

// Takes a line whole: the automaton of its pattern, if it has one.
fn take_line(line: &[u8], values: usize) -> Option<Automaton>
    requires { values ≤ most_values }
    ensures { MatchOption result (read_line values line.now ≡ unlawful) (LineAt values line.now) }
{
    if MOST_BYTES < line.len() {
        return None;
    }
    let marks = note_letters(line, values)?;
    let mut follow = [0u32; MOST_LETTERS];
    let p = read_group(line, 0, MOST_DEPTH, 0, &mut follow)?;
    if p.at != line.len() {
        return None;
    }
    Some(Automaton {
        null: p.null,
        first: p.first,
        last: p.last,
        follow,
        marks,
    })
}

// Fills the tables from a pattern on one line. Nothing is written before the line is judged and its states are counted.
pub fn read_pattern(
    line: &[u8],
    values: usize,
    targets: &mut [u8],
    costs: &mut [u16],
) -> Result<Outline, Answer>
    ensures { left_by result targets.new costs.new ≡ pattern_of line.now values targets.old costs.old }
{
    if !count_right(values) {
        return Err(Answer::WrongSize);
    }
    if !rules::tables_long(targets, costs) {
        return Err(Answer::WrongLength);
    }
    let automaton = take_line(line, values).ok_or(Answer::WrongPattern)?;
    let met = automaton.explore(values);
    let states = met.configurations().len();
    if bounds::MOST_STATES < states {
        return Err(Answer::ManyStates);
    }
    fill(targets, values, &automaton, &met);
    free(costs, states * values);
    Ok(Outline {
        size: Size {
            states,
            values,
            start: State(0),
        },
        accepting: accepting_of(&automaton, &met),
    })
}
