// What is printed: numbers after tabs, and each slice that a call has changed.
use crate::memory::{Entry, Memory};
use rules::{Answer, number_of};
use std::io::Stdout;

// The modulus of the checksum: the largest prime below 2^47, so that no two entries count alike and no sum wraps.
const MODULUS: u64 = 140737488355213;

// The content of a slice of at most so many entries is printed as it is.
const SHORT: usize = 16;

pub(crate) fn tell_word(mut out: Stdout, word: &[u8]) {
    streams::write_all(&mut out, word);
}

pub(crate) fn tell_number(mut out: Stdout, number: u64) {
    tell_word(out, b"\t");
    streams::write_decimal(&mut out, number);
}

pub(crate) fn tell_answer<T>(out: Stdout, given: &Result<T, Answer>) {
    tell_number(out, u64::from(number_of(given)));
}

// The checksum with one more entry.
fn mixed(sum: u64, entry: u64) -> u64 {
    (sum % MODULUS * 65599 + entry % 4294967296) % MODULUS
}

fn sum_of<T: Entry>(entries: &[T]) -> u64 {
    entries
        .iter()
        .fold(0, |sum, entry| mixed(sum, entry.number()))
}

// The checksum of each slice, in their order.
pub(crate) fn sums_of(memory: &Memory<'_>) -> [u64; 12] {
    [
        sum_of(memory.tables.targets.lent()),
        sum_of(memory.tables.costs.lent()),
        sum_of(memory.masks.lent()),
        sum_of(memory.limits.lent()),
        sum_of(memory.kept.lent()),
        sum_of(memory.roster.lent()),
        sum_of(memory.work.lent()),
        sum_of(memory.session.lent()),
        sum_of(memory.input.lent()),
        sum_of(memory.output.lent()),
        sum_of(memory.drawn.lent()),
        sum_of(memory.plan.lent()),
    ]
}

// So many entries from a place on, as they are and as far as there are so many.
fn tell_entries<T: Entry>(out: Stdout, entries: &[T], place: usize, count: usize) {
    for entry in entries.iter().skip(place).take(count) {
        tell_number(out, entry.number());
    }
}

// A slice's name and content, if it has changed.
fn tell_change<T: Entry>(out: Stdout, name: &[u8], entries: &[T], before: u64) {
    let sum = sum_of(entries);
    if sum == before {
        return;
    }
    tell_word(out, name);
    if entries.len() <= SHORT {
        tell_entries(out, entries, 0, entries.len());
    } else if entries.iter().all(|entry| entry.number() == 0) {
        tell_word(out, b"\tzeros");
    } else {
        tell_word(out, b"\tsum");
        tell_number(out, sum);
    }
}

// The end of a call's line: each slice whose checksum is another than before.
pub(crate) fn tell_changes(out: Stdout, memory: &Memory<'_>, before: [u64; 12]) {
    let [
        targets,
        costs,
        masks,
        limits,
        kept,
        roster,
        work,
        session,
        input,
        output,
        drawn,
        plan,
    ] = before;
    tell_change(out, b"\ttargets", memory.tables.targets.lent(), targets);
    tell_change(out, b"\tcosts", memory.tables.costs.lent(), costs);
    tell_change(out, b"\tmasks", memory.masks.lent(), masks);
    tell_change(out, b"\tlimits", memory.limits.lent(), limits);
    tell_change(out, b"\tkept", memory.kept.lent(), kept);
    tell_change(out, b"\troster", memory.roster.lent(), roster);
    tell_change(out, b"\twork", memory.work.lent(), work);
    tell_change(out, b"\tsession", memory.session.lent(), session);
    tell_change(out, b"\tinput", memory.input.lent(), input);
    tell_change(out, b"\toutput", memory.output.lent(), output);
    tell_change(out, b"\tdrawn", memory.drawn.lent(), drawn);
    tell_change(out, b"\tplan", memory.plan.lent(), plan);
    tell_word(out, b"\n");
}

// A line with a run of entries, as far as there are so many.
pub(crate) fn show<T: Entry>(out: Stdout, entries: &[T], place: usize, count: usize) {
    tell_word(out, b"show");
    tell_entries(out, entries, place, count);
    tell_word(out, b"\n");
}
