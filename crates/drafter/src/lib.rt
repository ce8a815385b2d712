// The work of the program that makes a sheet of a pattern: input bytes to output bytes.
#![tactic(auto)]

ghost use Rattle.std.specs.Prelude.{◌≡◌, true, replicate};
ghost use Rattle.meaning.specs.Bounds.{table_size};
ghost use Rattle.text.specs.Writing.{Wrote};
ghost use Rattle.patterns.specs.Outcome.{count_right, pattern_of};
ghost use Rattle.drafter.specs.Drafting.{line_of, draft_of, pattern_job_text};

use compositor::read_pattern;
use rules::{Answer, RuleSet, bounds};
use scribe::{LONGEST_SHEET, write_sheet};
use text::numbers::{Number, field_at};
use text::puts::put_word;

// A longer input is refused: two digits, a tab, 256 bytes and a line feed.
pub const LONGEST_INPUT: usize = 260;

// The line of an input: a line feed that ends the input is no part of it.
fn line_of(input: &[u8]) -> &[u8]
    ensures { result.now ≡ line_of input.now }
{
    let Some((last, line)) = input.split_last() else {
        return input;
    };
    if *last == b'\n' { line } else { input }
}

// Puts the sheet of a pattern, or why there is none.
fn put_draft(line: &[u8], values: usize, output: &mut [u8]) -> usize
    requires { count_right values ≡ true }
    ensures { Wrote output.old 0 (draft_of (pattern_of line.now values (replicate table_size 0) (replicate table_size 0))) output.new result }
{
    let mut targets = [0u8; bounds::TABLE_SIZE];
    let mut costs = [0u16; bounds::TABLE_SIZE];
    match read_pattern(line, values, &mut targets, &mut costs) {
        Ok(outline) => {
            let rules = RuleSet {
                size: outline.size,
                targets: &targets,
                costs: &costs,
                accepting: outline.accepting,
            };
            let mut text = [0u8; LONGEST_SHEET];
            let length = write_sheet(&rules, &mut text).unwrap_or(0);
            put_word(output, 0, &text[..length])
        }
        Err(answer) => match answer {
            Answer::ManyStates => put_word(output, 0, b"states\n"),
            // V and the tables' lengths are right, so it is the pattern.
            _ => put_word(output, 0, b"pattern\n"),
        },
    }
}

// The program: puts what it prints for an input into a buffer, as far as that has room, and gives its length.
pub fn pattern_job(input: &[u8], output: &mut [u8]) -> usize
    ensures { Wrote output.old 0 (pattern_job_text input.now) output.new result }
{
    let line = line_of(input);
    match field_at(line, 0, 1, bounds::MOST_VALUES as u32) {
        Ok(Number { value, end }) => put_draft(&line[end..], value as usize, output),
        Err(_) => put_word(output, 0, b"values\n"),
    }
}
