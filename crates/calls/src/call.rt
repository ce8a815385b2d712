// A line that asks for a call: the call is carried out upon the slices, and its line printed.
use crate::memory::Memory;
use crate::script::{Call, field_end};
use crate::tell::{sums_of, tell_changes, tell_word};
use crate::{mend_calls, plan_calls, session_calls, sheet_calls};
use std::io::Stdout;

// Makes the call, and prints its answer and the numbers that it carries.
fn make(out: Stdout, call: Call, line: &[u8], memory: &mut Memory<'_>) {
    match call {
        Call::Filter => plan_calls::filter(out, memory),
        Call::First => plan_calls::first(out, line, memory),
        Call::Report => plan_calls::report(out, memory),
        Call::Mend => mend_calls::mend(out, line, memory),
        Call::Check => mend_calls::check(out, line, memory),
        Call::Read => sheet_calls::read(out, memory),
        Call::Pattern => sheet_calls::pattern(out, memory),
        Call::Write => sheet_calls::write(out, memory),
        Call::Job => sheet_calls::job(out, memory),
        Call::MendJob => sheet_calls::mend_job(out, memory),
        Call::PatternJob => sheet_calls::pattern_job(out, memory),
        Call::Open => session_calls::open(out, memory),
        Call::Keep => session_calls::keep(out, line, memory),
        Call::Limit => session_calls::limit(out, line, memory),
        Call::Mark => session_calls::mark(out, memory),
        Call::Back => session_calls::back(out, memory),
    }
}

// Carries out the call that a line asks for, and prints its line.
pub(crate) fn call_line(out: Stdout, call: Call, line: &[u8], memory: &mut Memory<'_>) {
    let before = sums_of(memory);
    let word_end = field_end(line, 0);
    tell_word(out, &line[..word_end]);
    make(out, call, line, memory);
    tell_changes(out, memory, before);
}
