// The calls that work on a plan: the filter, the first roster and the prefix report. Each prints its answer and the numbers that it carries.
use crate::memory::{Entry, Memory};
use crate::script::{field_end, pair_at};
use crate::tell::{tell_answer, tell_number};
use kinds::Value;
use std::io::Stdout;

pub(crate) fn filter(out: Stdout, memory: &mut Memory<'_>) {
    let tables = &memory.tables;
    let verdict = filter::filter(
        tables.places(),
        &tables.rules(),
        memory.masks.lent(),
        memory.limits.lent(),
        memory.kept.lent_mut(),
        memory.work.lent_mut(),
    );
    tell_answer(out, &verdict);
    tell_number(out, u64::from(verdict.unwrap_or(0)));
}

pub(crate) fn first(out: Stdout, line: &[u8], memory: &mut Memory<'_>) {
    let tables = &memory.tables;
    let (place, value) = pair_at(line, field_end(line, 0));
    let found = filter::first_roster(
        tables.places(),
        &tables.rules(),
        memory.masks.lent(),
        memory.limits.lent(),
        place,
        Value(u8::cut(value)),
        memory.roster.lent_mut(),
        memory.work.lent_mut(),
    );
    tell_answer(out, &found);
}

pub(crate) fn report(out: Stdout, memory: &mut Memory<'_>) {
    let tables = &memory.tables;
    let reported = rules::prefix_report(tables.places(), &tables.rules(), memory.roster.lent());
    tell_answer(out, &reported);
    tell_number(out, reported.unwrap_or(0) as u64);
}
