// The calls that mend a drawn roster, and check a mended one. Each prints its answer and the number that it carries.
use crate::memory::{Entry, Memory};
use crate::script::{field_end, number_at};
use crate::tell::{tell_answer, tell_number};
use std::io::Stdout;

pub(crate) fn mend(out: Stdout, line: &[u8], memory: &mut Memory<'_>) {
    let tables = &memory.tables;
    let most = number_at(line, field_end(line, 0));
    let mended = planner::mend(
        tables.places(),
        &tables.rules(),
        memory.masks.lent(),
        memory.limits.lent(),
        memory.drawn.lent(),
        u32::cut(most.value),
        memory.roster.lent_mut(),
        memory.plan.lent_mut(),
    );
    tell_answer(out, &mended);
    tell_number(out, u64::from(mended.unwrap_or(0)));
}

pub(crate) fn check(out: Stdout, line: &[u8], memory: &mut Memory<'_>) {
    let tables = &memory.tables;
    let claimed = number_at(line, field_end(line, 0));
    let checked = checker::check_roster(
        tables.places(),
        &tables.rules(),
        memory.masks.lent(),
        memory.limits.lent(),
        memory.drawn.lent(),
        memory.roster.lent(),
        u32::cut(claimed.value),
    );
    tell_answer(out, &checked);
    tell_number(out, u64::from(checked.unwrap_or(false)));
}
