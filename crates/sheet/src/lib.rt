// The reader of sheets.
#![tactic(auto)]

ghost use Rattle.std.specs.Prelude.{◌≡◌};
ghost use Rattle.rules.specs.Answers.{number_of};
ghost use Rattle.sheet.specs.Reading.{fault_answer, unread_answer, unread_line, given_of, read_given, read_of};

mod lines;
mod take;

use crate::take::{clear, take_sheet};
use rules::{Answer, Outline};
use text::lines::Fault;

// The answer for a wrong line, by its fault.
fn answer_for(fault: Fault) -> Answer
    ensures { number_of result ≡ fault_answer fault }
{
    match fault {
        Fault::Form => Answer::WrongSheet,
        Fault::Range => Answer::NumberOutside,
        Fault::Order => Answer::WrongSheet,
        Fault::Cut => Answer::WrongSheet,
    }
}

// Why a sheet is not read: tables of a wrong length, or its first wrong line, from 1, and the fault of that.
#[derive(Clone, Copy, PartialEq, Eq)]
pub enum Unread {
    WrongLength,
    WrongLine(usize, Fault),
}

impl Unread {
    // The answer.
    pub fn answer(self) -> Answer
        ensures { number_of result ≡ unread_answer self }
    {
        match self {
            Unread::WrongLength => Answer::WrongLength,
            Unread::WrongLine(_, fault) => answer_for(fault),
        }
    }

    // The line that the answer carries, 0 where it carries none.
    pub fn line(self) -> usize
        ensures { result ≡ unread_line self }
    {
        match self {
            Unread::WrongLength => 0,
            Unread::WrongLine(line, _) => line,
        }
    }
}

// Reads a sheet into full tables. Judged whole, with no room in the tables, before anything is written.
pub fn read_sheet(text: &[u8], targets: &mut [u8], costs: &mut [u16]) -> Result<Outline, Unread>
    ensures gives { result ≡ given_of text.now targets.old costs.old }
    ensures leaves { read_given result targets.new costs.new ≡ read_of text.now targets.old costs.old }
{
    if !rules::tables_long(targets, costs) {
        return Err(Unread::WrongLength);
    }
    let Outline { size, .. } = take_sheet(text, &mut targets[..0], &mut costs[..0])?;
    clear(targets, costs, size.states * size.values);
    take_sheet(text, targets, costs)
}
