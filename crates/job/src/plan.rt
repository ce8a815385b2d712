// A job for a rule set that was read: its lines are taken, then it is filtered or mended, and printed.
ghost use Rattle.std.specs.Prelude.{◌≤◌, length, drop};
ghost use Rattle.meaning.specs.Bounds.{most_values};
ghost use Rattle.rules.specs.Checks.{rules_in};
ghost use Rattle.text.specs.Lines.{lines};
ghost use Rattle.text.specs.Writing.{Wrote};
ghost use Rattle.job.specs.Input.{most_days, most_lines, read_decisions};
ghost use Rattle.job.specs.Job.{days_done, rota};
ghost use Rattle.job.specs.Inner.{program, RulesRight, Asks};

use crate::asks::{MOST_DAYS, count_line};
use crate::print::put_line;
use crate::repair::carry_mend;
use crate::show::{DAYS, show};
use crate::take::{WrongLine, take_lines};
use kinds::Mask;
use rules::RuleSet;
use rules::bounds::TOP;
use text::lines::line_end;

// What is done with a job: each task is a program. No closure: the contract of each function on the way names the program, and each would have
// to ask of a closure, in clauses of its own, that it carries that out.
#[derive(Clone, Copy)]
pub(crate) enum Task {
    Filter,
    Mend,
}

// Room for the masks and the limits of as many days as a job may have.
#[derive(Clone, Copy)]
pub(crate) struct Room {
    pub(crate) masks: [u16; DAYS],
    pub(crate) limits: [u32; DAYS],
}

// What the lines from `from` on ask for, of so many days: full masks and limits at the top, narrowed by each decision.
pub(crate) fn asked_for(
    text: &[u8],
    from: usize,
    days: usize,
    values: usize,
) -> Result<Room, WrongLine>
    requires { (1 ≤ days) × (days ≤ most_days) × (values ≤ most_values) × (from ≤ length text.now) }
    ensures { Asks (read_decisions days values 2 most_lines (lines (drop from text.now))) days values result }
{
    let full = Mask::full(values);
    let mut masks = [full.0; DAYS];
    let mut limits = [TOP; DAYS];
    take_lines(text, from, values, &mut masks[..days], &mut limits[..days])?;
    Ok(Room { masks, limits })
}

// The lines behind the days line, for so many days.
pub(crate) fn carry_out(
    text: &[u8],
    from: usize,
    days: usize,
    rules: &RuleSet<'_>,
    output: &mut [u8],
) -> usize
    requires { RulesRight rules.now × (1 ≤ days) × (days ≤ most_days) × (from ≤ length text.now) }
    ensures { Wrote output.old 0 (rota (rules_in rules.now) rules.now.size.start.0 days (lines (drop from text.now))) output.new result }
{
    match asked_for(text, from, days, rules.size.values) {
        Err(WrongLine(line)) => put_line(output, 0, b"job\t", line),
        Ok(room) => show(
            days,
            rules,
            &room.masks[..days],
            &room.limits[..days],
            output,
        ),
    }
}

// The lines behind the days line, by the task.
pub(crate) fn carry_task(
    task: Task,
    text: &[u8],
    from: usize,
    days: usize,
    rules: &RuleSet<'_>,
    output: &mut [u8],
) -> usize
    requires { RulesRight rules.now × (1 ≤ days) × (days ≤ most_days) × (from ≤ length text.now) }
    ensures { Wrote output.old 0 (program task (rules_in rules.now) rules.now.size.start.0 days (lines (drop from text.now))) output.new result }
{
    match task {
        Task::Filter => carry_out(text, from, days, rules, output),
        Task::Mend => carry_mend(text, from, days, rules, output),
    }
}

// The whole job.
pub(crate) fn plan(task: Task, text: &[u8], rules: &RuleSet<'_>, output: &mut [u8]) -> usize
    requires { RulesRight rules.now }
    ensures { Wrote output.old 0 (days_done (program task (rules_in rules.now) rules.now.size.start.0) (lines text.now)) output.new result }
{
    if text.len() == 0 {
        return put_line(output, 0, b"job\t", 1);
    }
    let end = line_end(text, 0);
    let first = count_line(&text[..end], b"days", 1, MOST_DAYS);
    match first {
        Err(_) => put_line(output, 0, b"job\t", 1),
        Ok(days) => carry_task(task, text, end, days as usize, rules, output),
    }
}
