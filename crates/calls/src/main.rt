// Carries out a script of calls: docs/CALLS.md says what its lines are and what is printed. What it prints is compared with the second
// program's lines; nothing is promised of it but that it ends and keeps to its memory.
#![tactic(auto)]

ghost use Rattle.std.specs.Prelude.{◌≡◌, ◌<◌, ◌≤◌, length};

mod call;
mod memory;
mod mend_calls;
mod plan_calls;
mod script;
mod session_calls;
mod sheet_calls;
mod tell;

use crate::call::call_line;
use crate::memory::{Entry, Memory, Slice, Tables};
use crate::script::{OnSlice, Word, field_end, letter_at, number_at, pair_at, word_of};
use crate::tell::{show, tell_word};
use std::io::Stdout;
use text::lines::line_end;

// As long as a script may be.
const LONGEST: usize = 2097152;

// Carries out a line that names a slice, on that slice.
fn on_slice<T: Entry>(out: Stdout, what: OnSlice, line: &[u8], slice: &mut Slice<'_, T>) {
    let first = number_at(line, field_end(line, field_end(line, 0)));
    let (count, number) = pair_at(line, first.end);
    let place = first.value as usize;
    match what {
        OnSlice::Length => slice.set_length(place),
        OnSlice::Put => slice.put(place, line, first.end),
        OnSlice::Fill => slice.fill(place, count, number),
        OnSlice::Show => show(out, slice.lent(), place, count),
    }
}

// Carries out a line that names a slice: its first letter tells which. Under another letter there is none, and so no room.
fn slice_line(out: Stdout, what: OnSlice, line: &[u8], memory: &mut Memory<'_>) {
    match letter_at(line, field_end(line, 0)) {
        Some(b't') => on_slice(out, what, line, &mut memory.tables.targets),
        Some(b'c') => on_slice(out, what, line, &mut memory.tables.costs),
        Some(b'm') => on_slice(out, what, line, &mut memory.masks),
        Some(b'l') => on_slice(out, what, line, &mut memory.limits),
        Some(b'k') => on_slice(out, what, line, &mut memory.kept),
        Some(b'r') => on_slice(out, what, line, &mut memory.roster),
        Some(b'w') => on_slice(out, what, line, &mut memory.work),
        Some(b's') => on_slice(out, what, line, &mut memory.session),
        Some(b'i') => on_slice(out, what, line, &mut memory.input),
        Some(b'o') => on_slice(out, what, line, &mut memory.output),
        Some(b'd') => on_slice(out, what, line, &mut memory.drawn),
        Some(b'p') => on_slice(out, what, line, &mut memory.plan),
        _ => on_slice(out, what, line, &mut Slice::new(&mut [0u8; 0])),
    }
}

// The bytes behind a line, as many as it says and there are, taken for the input; gives where they end.
fn take_bytes(script: &[u8], from: usize, memory: &mut Memory<'_>) -> usize
    requires { from ≤ length script.now }
    ensures { (from ≤ result) × (result ≤ length script.now) }
{
    let count = number_at(script, field_end(script, 0)).value as usize;
    let end = from + count.min(script.len() - from);
    memory.input.hold(&script[from..end]);
    end
}

// Carries the first line out, and gives where the next begins.
fn step(out: Stdout, script: &[u8], memory: &mut Memory<'_>) -> usize
    requires { 0 < length script.now }
    ensures { (0 < result) × (result ≤ length script.now) }
{
    let end = line_end(script, 0);
    let line = &script[..end];
    match word_of(line) {
        Some(Word::Remark) => {}
        Some(Word::Size) => memory.tables.put_numbers(line, field_end(line, 0)),
        Some(Word::Bytes) => return take_bytes(script, end, memory),
        Some(Word::Slice(what)) => slice_line(out, what, line, memory),
        Some(Word::Call(call)) => call_line(out, call, line, memory),
        None => tell_word(out, b"unknown\n"),
    }
    end
}

fn run(out: Stdout, script: &[u8], memory: &mut Memory<'_>) {
    // no `for`: a step is as long as its line, and the bytes that it takes
    let mut rest = script;
    while !rest.is_empty() {
        rest = &rest[step(out, rest, memory)..];
    }
}

// Carries a script out, on a memory of zeros.
fn begin(out: Stdout, script: &[u8]) {
    let mut targets = [0u8; memory::TABLE_ROOM];
    let mut costs = [0u16; memory::TABLE_ROOM];
    let mut masks = [0u16; memory::PLACES_ROOM];
    let mut limits = [0u32; memory::PLACES_ROOM];
    let mut kept = [0u16; memory::PLACES_ROOM];
    let mut roster = [0u8; memory::PLACES_ROOM];
    let mut work = [0u32; memory::WORK_ROOM];
    let mut session = [0u32; memory::SESSION_ROOM];
    let mut input = [0u8; memory::INPUT_ROOM];
    let mut output = [0u8; memory::OUTPUT_ROOM];
    let mut drawn = [0u8; memory::PLACES_ROOM];
    let mut plan = [0u32; memory::PLAN_ROOM];
    let mut memory = Memory {
        tables: Tables {
            numbers: [0; 5],
            targets: Slice::new(&mut targets),
            costs: Slice::new(&mut costs),
        },
        masks: Slice::new(&mut masks),
        limits: Slice::new(&mut limits),
        kept: Slice::new(&mut kept),
        roster: Slice::new(&mut roster),
        work: Slice::new(&mut work),
        session: Slice::new(&mut session),
        input: Slice::new(&mut input),
        output: Slice::new(&mut output),
        drawn: Slice::new(&mut drawn),
        plan: Slice::new(&mut plan),
    };
    run(out, script, &mut memory);
}

// Room for a script and one byte past it, by which a longer one is known. Not in `main`: its proofs would count the zeros one by one.
fn script_room() -> [u8; LONGEST + 1]
    ensures { 2097153 ≡ length result }
{
    [0; LONGEST + 1]
}

fn main(rt: HostRuntime) {
    let mut script = script_room();
    let mut input = rt.stdin();
    let out = rt.stdout();
    let got = streams::read_full(&mut input, &mut script);
    if LONGEST < got {
        tell_word(out, b"long\n");
        return;
    }
    begin(out, &script[..got]);
}
