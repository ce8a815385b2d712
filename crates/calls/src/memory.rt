// The memory that a script works on: five numbers, and twelve slices, of which a call is lent the first entries, as many as the slice's
// length says.
use crate::script::number_at;
use kinds::State;
use rules::{RuleSet, Size};

// Room for a rule table, for the numbers of the places, and for the rest.
pub(crate) const TABLE_ROOM: usize = 1100;

pub(crate) const PLACES_ROOM: usize = 400;

pub(crate) const WORK_ROOM: usize = 24000;

pub(crate) const SESSION_ROOM: usize = 3000;

pub(crate) const INPUT_ROOM: usize = 33000;

pub(crate) const OUTPUT_ROOM: usize = 20000;

pub(crate) const PLAN_ROOM: usize = 190000;

// What a slice's entries are: a number that is put in or handed over is cut to their width. No TryFrom: a wider number isn't refused.
pub(crate) trait Entry: Copy {
    fn cut(number: u64) -> Self;

    fn number(self) -> u64;
}

impl Entry for u8 {
    fn cut(number: u64) -> u8 {
        (number % 256) as u8
    }

    fn number(self) -> u64 {
        u64::from(self)
    }
}

impl Entry for u16 {
    fn cut(number: u64) -> u16 {
        (number % 65536) as u16
    }

    fn number(self) -> u64 {
        u64::from(self)
    }
}

impl Entry for u32 {
    fn cut(number: u64) -> u32 {
        (number % 4294967296) as u32
    }

    fn number(self) -> u64 {
        u64::from(self)
    }
}

impl Entry for u64 {
    fn cut(number: u64) -> u64 {
        number
    }

    fn number(self) -> u64 {
        self
    }
}

// Sets the entries from a place on to the numbers of a line's fields, from the field at `at` on, as far as there is room.
fn put_fields<T: Entry>(room: &mut [T], first: usize, line: &[u8], at: usize) {
    let mut place = first;
    for i in at..line.len() {
        if line[i] == b'\t' {
            if place < room.len() {
                room[place] = T::cut(number_at(line, i).value);
            }
            place = place.saturating_add(1);
        }
    }
}

// A slice: its room, and how many entries are lent.
#[derive(Drop)]
pub(crate) struct Slice<'a, T> {
    room: &'a mut [T],
    length: usize,
}

impl<'a, T: Entry> Slice<'a, T> {
    pub(crate) fn new(room: &'a mut [T]) -> Slice<'a, T> {
        Slice { room, length: 0 }
    }

    pub(crate) fn lent(&self) -> &[T] {
        &self.room[..self.length.min(self.room.len())]
    }

    pub(crate) fn lent_mut(&mut self) -> &mut [T] {
        let length = self.length.min(self.room.len());
        &mut self.room[..length]
    }

    // Sets the length, at most the room.
    pub(crate) fn set_length(&mut self, count: usize) {
        self.length = count.min(self.room.len());
    }

    // Sets the entries from a place on to the numbers of a line's fields, from the field at `at` on.
    pub(crate) fn put(&mut self, first: usize, line: &[u8], at: usize) {
        put_fields(self.room, first, line, at);
    }

    // Sets a run of entries to one number, as far as the slice has room: a count may be as large as a number can be.
    pub(crate) fn fill(&mut self, place: usize, count: usize, number: u64) {
        for entry in self.room.iter_mut().skip(place).take(count) {
            *entry = T::cut(number);
        }
    }

    // Takes entries for its content, as many as it has room for.
    pub(crate) fn hold(&mut self, entries: &[T]) {
        let length = entries.len().min(self.room.len());
        self.room[..length].copy_from_slice(&entries[..length]);
        self.length = length;
    }
}

// The rules as the script has set them: the five numbers n, Q, V, start and accepting, and the two tables.
#[derive(Drop)]
pub(crate) struct Tables<'a> {
    pub(crate) numbers: [u64; 5],
    pub(crate) targets: Slice<'a, u8>,
    pub(crate) costs: Slice<'a, u16>,
}

impl<'a> Tables<'a> {
    // Sets the five numbers to those of a line's fields, from the field at `at` on.
    pub(crate) fn put_numbers(&mut self, line: &[u8], at: usize) {
        put_fields(&mut self.numbers, 0, line, at);
    }

    pub(crate) fn places(&self) -> usize {
        self.numbers[0] as usize
    }

    pub(crate) fn rules(&self) -> RuleSet<'_> {
        let [_, states, values, start, accepting] = self.numbers;
        RuleSet {
            size: Size {
                states: states as usize,
                values: values as usize,
                start: State(u8::cut(start)),
            },
            targets: self.targets.lent(),
            costs: self.costs.lent(),
            accepting,
        }
    }
}

#[derive(Drop)]
pub(crate) struct Memory<'a> {
    pub(crate) tables: Tables<'a>,
    pub(crate) masks: Slice<'a, u16>,
    pub(crate) limits: Slice<'a, u32>,
    pub(crate) kept: Slice<'a, u16>,
    pub(crate) roster: Slice<'a, u8>,
    pub(crate) work: Slice<'a, u32>,
    pub(crate) session: Slice<'a, u32>,
    pub(crate) input: Slice<'a, u8>,
    pub(crate) output: Slice<'a, u8>,
    pub(crate) drawn: Slice<'a, u8>,
    pub(crate) plan: Slice<'a, u32>,
}
