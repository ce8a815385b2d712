// The programs' work: input bytes to output bytes.
#![tactic(auto)]

ghost use Rattle.std.specs.Prelude.{true};
ghost use Rattle.sheet.specs.Reading.{read_of};
ghost use Rattle.text.specs.Writing.{Wrote};
ghost use Rattle.job.specs.Input.{before};
ghost use Rattle.job.specs.Job.{sheet_done, program_text, job_text};
ghost use Rattle.job.specs.Mend.{mend_job_text};
ghost use Rattle.job.specs.Inner.{program};

mod asks;
mod cut;
mod mended;
mod plan;
mod print;
mod repair;
mod show;
mod take;
mod wish;

use crate::cut::cut_at;
use crate::plan::{Task, plan};
use crate::print::{put_line, put_wrong};
use rules::{RuleSet, bounds};
use sheet::read_sheet;
use text::puts::put_word;

// As long as an input may be.
pub const LONGEST_INPUT: usize = 32768;

// As many bytes as are printed at the most.
pub const LONGEST_OUTPUT: usize = 2048;

// An input that is not too long, with blank tables to read its sheet into.
fn job_in(
    task: Task,
    input: &[u8],
    targets: &mut [u8],
    costs: &mut [u16],
    output: &mut [u8],
) -> usize
    ensures { Wrote output.old 0 (sheet_done (program task) input.now (read_of (before true input.now) targets.old costs.old)) output.new result }
{
    let cut = cut_at(input);
    let outline = match read_sheet(&input[..cut.sheet], targets, costs) {
        Ok(outline) => outline,
        Err(unread) => return put_wrong(output, unread.answer(), unread.line()),
    };
    let Some(job) = cut.job else {
        return put_line(output, 0, b"job\t", 1);
    };
    let rules = RuleSet {
        size: outline.size,
        targets,
        costs,
        accepting: outline.accepting,
    };
    plan(task, &input[job..], &rules, output)
}

// What a task prints for an input.
fn job_for(task: Task, input: &[u8], output: &mut [u8]) -> usize
    ensures { Wrote output.old 0 (program_text (program task) input.now) output.new result }
{
    if LONGEST_INPUT < input.len() {
        return put_word(output, 0, b"long\n");
    }
    let mut targets = [0u8; bounds::TABLE_SIZE];
    let mut costs = [0u16; bounds::TABLE_SIZE];
    job_in(task, input, &mut targets, &mut costs, output)
}

// The program: puts what it prints for an input into a buffer, as far as that has room, and gives its length.
pub fn job(input: &[u8], output: &mut [u8]) -> usize
    ensures { Wrote output.old 0 (job_text input.now) output.new result }
{
    job_for(Task::Filter, input, output)
}

// The same for the program that mends.
pub fn mend_job(input: &[u8], output: &mut [u8]) -> usize
    ensures { Wrote output.old 0 (mend_job_text input.now) output.new result }
{
    job_for(Task::Mend, input, output)
}
