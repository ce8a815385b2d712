// Sessions: open, keep, limit, mark and back. Each call is lent the sizes, the rule tables, the memory and the work table anew.
#![tactic(auto)]

ghost use Rattle.std.specs.Prelude.{◌≡◌};
ghost use Rattle.meaning.specs.Meaning.{Keep, Limit};
ghost use Rattle.rules.specs.Checks.{handed_in};
ghost use Rattle.rules.specs.Answers.{answer_of};
ghost use Rattle.ledger.specs.Sessions.{opening, deciding, marking, going_back};
ghost use Rattle.ledger.specs.Readiness.{left};
ghost use Rattle.ledger.specs.Calls.{opened, called};

mod asks;
mod entries;
mod opening;

use kinds::Mask;
use machine::layout;
use machine::rows::{Kind, Row};
use rules::{Answer, RuleSet, masks_right, rules_right, sizes_right};

// Opens a session in memory of any content.
pub fn open(
    places: usize,
    rules: &RuleSet<'_>,
    masks: &[u16],
    limits: &[u32],
    memory: &mut [u32],
    work: &mut [u32],
) -> Result<(), Answer>
    ensures { left (answer_of result) memory.new work.new ≡ opened (handed_in places rules.now) (opening masks.now limits.now) memory.old work.old }
{
    let size = rules.size;
    if !sizes_right(places, size) {
        return Err(Answer::WrongSize);
    }
    if !opening::lengths_right(places, rules, masks, limits, memory.len(), work.len()) {
        return Err(Answer::WrongLength);
    }
    if !rules_right(rules) {
        work.fill(0);
        return Err(Answer::WrongTables);
    }
    if !masks_right(size.values, masks) {
        work.fill(0);
        return Err(Answer::WrongMask);
    }
    let front = places + layout::SHOWN;
    opening::begin(places, size, masks, limits, &mut memory[front..]);
    machine::renew(places, rules, memory, work)
}

// Keep: narrows one place to a mask.
pub fn keep(
    places: usize,
    rules: &RuleSet<'_>,
    place: usize,
    mask: u16,
    memory: &mut [u32],
    work: &mut [u32],
) -> Result<(), Answer>
    ensures { left (answer_of result) memory.new work.new ≡ called (handed_in places rules.now) (deciding (Keep place mask)) memory.old work.old }
{
    machine::ready(places, rules, memory, work)?;
    if !asks::keep_right(places, rules.size.values, place, Mask(mask)) {
        return Err(Answer::OutOfRange);
    }
    asks::decide(
        places,
        rules,
        Row {
            kind: Kind::Keep as u32,
            place: place as u32,
            amount: mask as u32,
        },
        memory,
        work,
    )
}

// Limit: sets one place's limit to the smaller of the old and the given.
pub fn limit(
    places: usize,
    rules: &RuleSet<'_>,
    place: usize,
    cost: u32,
    memory: &mut [u32],
    work: &mut [u32],
) -> Result<(), Answer>
    ensures { left (answer_of result) memory.new work.new ≡ called (handed_in places rules.now) (deciding (Limit place cost)) memory.old work.old }
{
    machine::ready(places, rules, memory, work)?;
    if places <= place {
        return Err(Answer::OutOfRange);
    }
    asks::decide(
        places,
        rules,
        Row {
            kind: Kind::Limit as u32,
            place: place as u32,
            amount: cost,
        },
        memory,
        work,
    )
}

// Mark: opens a mark. What is shown stays, so nothing is renewed.
pub fn mark(
    places: usize,
    rules: &RuleSet<'_>,
    memory: &mut [u32],
    work: &mut [u32],
) -> Result<(), Answer>
    ensures { left (answer_of result) memory.new work.new ≡ called (handed_in places rules.now) marking memory.old work.old }
{
    machine::ready(places, rules, memory, work)?;
    let front = places + layout::SHOWN;
    if layout::MOST_MARKS <= memory[front + layout::MARKS] {
        return Err(Answer::MarksFull);
    }
    let row = Row {
        kind: Kind::Mark as u32,
        place: 0,
        amount: 0,
    };
    entries::push(&mut memory[front..], row);
    asks::on_hand(memory[layout::RESULT])
}

// Back: removes the newest open mark and every decision after it.
pub fn back(
    places: usize,
    rules: &RuleSet<'_>,
    memory: &mut [u32],
    work: &mut [u32],
) -> Result<(), Answer>
    ensures { left (answer_of result) memory.new work.new ≡ called (handed_in places rules.now) going_back memory.old work.old }
{
    machine::ready(places, rules, memory, work)?;
    let front = places + layout::SHOWN;
    let Some(mark) = entries::newest_mark(&memory[front..]) else {
        return Err(Answer::NoMark);
    };
    entries::undo(&mut memory[front..], mark);
    machine::renew(places, rules, memory, work)
}
