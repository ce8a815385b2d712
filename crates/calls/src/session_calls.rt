// The calls upon a session. Each prints its answer.
use crate::memory::{Entry, Memory};
use crate::script::{field_end, pair_at};
use crate::tell::tell_answer;
use std::io::Stdout;

pub(crate) fn open(out: Stdout, memory: &mut Memory<'_>) {
    let tables = &memory.tables;
    let done = session::open(
        tables.places(),
        &tables.rules(),
        memory.masks.lent(),
        memory.limits.lent(),
        memory.session.lent_mut(),
        memory.work.lent_mut(),
    );
    tell_answer(out, &done);
}

pub(crate) fn keep(out: Stdout, line: &[u8], memory: &mut Memory<'_>) {
    let tables = &memory.tables;
    let (place, mask) = pair_at(line, field_end(line, 0));
    let done = session::keep(
        tables.places(),
        &tables.rules(),
        place,
        u16::cut(mask),
        memory.session.lent_mut(),
        memory.work.lent_mut(),
    );
    tell_answer(out, &done);
}

pub(crate) fn limit(out: Stdout, line: &[u8], memory: &mut Memory<'_>) {
    let tables = &memory.tables;
    let (place, cost) = pair_at(line, field_end(line, 0));
    let done = session::limit(
        tables.places(),
        &tables.rules(),
        place,
        u32::cut(cost),
        memory.session.lent_mut(),
        memory.work.lent_mut(),
    );
    tell_answer(out, &done);
}

pub(crate) fn mark(out: Stdout, memory: &mut Memory<'_>) {
    let tables = &memory.tables;
    let done = session::mark(
        tables.places(),
        &tables.rules(),
        memory.session.lent_mut(),
        memory.work.lent_mut(),
    );
    tell_answer(out, &done);
}

pub(crate) fn back(out: Stdout, memory: &mut Memory<'_>) {
    let tables = &memory.tables;
    let done = session::back(
        tables.places(),
        &tables.rules(),
        memory.session.lent_mut(),
        memory.work.lent_mut(),
    );
    tell_answer(out, &done);
}
