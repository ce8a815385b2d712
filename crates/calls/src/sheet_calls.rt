// The calls that work on text: a sheet or a pattern read, a sheet written, and the programs' jobs. Each prints its answer and the numbers that it carries.
use crate::memory::Memory;
use crate::tell::{tell_answer, tell_number};
use kinds::State;
use rules::{Outline, Size};
use std::io::Stdout;

// What stands for an outline where there is none.
const NOTHING: Outline = Outline {
    size: Size {
        states: 0,
        values: 0,
        start: State(0),
    },
    accepting: 0,
};

// What a reader carries: Q, V, the start and the accepting mask; zeros under a refusal.
fn tell_outline(out: Stdout, given: Option<Outline>) {
    let outline = given.unwrap_or(NOTHING);
    tell_number(out, outline.size.states as u64);
    tell_number(out, outline.size.values as u64);
    tell_number(out, u64::from(outline.size.start.0));
    tell_number(out, outline.accepting);
}

pub(crate) fn read(out: Stdout, memory: &mut Memory<'_>) {
    let tables = &mut memory.tables;
    let reading = sheet::read_sheet(
        memory.input.lent(),
        tables.targets.lent_mut(),
        tables.costs.lent_mut(),
    );
    tell_answer(out, &reading.map_err(|unread| unread.answer()));
    let line = reading.err().map_or(0, |unread| unread.line());
    tell_number(out, line as u64);
    tell_outline(out, reading.ok());
}

pub(crate) fn pattern(out: Stdout, memory: &mut Memory<'_>) {
    let tables = &mut memory.tables;
    let values = tables.rules().size.values;
    let composed = compositor::read_pattern(
        memory.input.lent(),
        values,
        tables.targets.lent_mut(),
        tables.costs.lent_mut(),
    );
    tell_answer(out, &composed);
    tell_outline(out, composed.ok());
}

pub(crate) fn write(out: Stdout, memory: &mut Memory<'_>) {
    let written = scribe::write_sheet(&memory.tables.rules(), memory.output.lent_mut());
    tell_answer(out, &written);
    tell_number(out, written.unwrap_or(0) as u64);
}

pub(crate) fn job(out: Stdout, memory: &mut Memory<'_>) {
    let length = job::job(memory.input.lent(), memory.output.lent_mut());
    tell_number(out, length as u64);
}

pub(crate) fn mend_job(out: Stdout, memory: &mut Memory<'_>) {
    let length = job::mend_job(memory.input.lent(), memory.output.lent_mut());
    tell_number(out, length as u64);
}

pub(crate) fn pattern_job(out: Stdout, memory: &mut Memory<'_>) {
    let length = drafter::pattern_job(memory.input.lent(), memory.output.lent_mut());
    tell_number(out, length as u64);
}
