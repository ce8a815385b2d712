// The C boundary: numbers as themselves, a slice as a pointer and a length; the answer's number is returned, carried numbers are written.
#![tactic(auto)]

ghost use Rattle.std.specs.Prelude.{◌≡◌, ℕ, cond};
ghost use Rattle.meaning.specs.Meaning.{rules_of, Keep, Limit};
ghost use Rattle.rules.specs.Report.{outcome, report_of};
ghost use Rattle.rules.specs.Checks.{handed, handed_in};
ghost use Rattle.ledger.specs.Sessions.{opening, deciding, marking, going_back};
ghost use Rattle.ledger.specs.Readiness.{left as left_in};
ghost use Rattle.ledger.specs.Calls.{opened, called};
ghost use Rattle.filter.specs.Filter.{left, filter_of};
ghost use Rattle.filter.specs.First.{given, first_of};
ghost use Rattle.mending.specs.Outcomes.{planned, mend_of, check_of};
ghost use Rattle.sheet.specs.Reading.{read_left, read_of};
ghost use Rattle.patterns.specs.Outcome.{pattern_left, pattern_of};
ghost use Rattle.scribe.specs.Writing.{write_left, write_of};
ghost use Rattle.text.specs.Writing.{Wrote};
ghost use Rattle.job.specs.Job.{job_text};
ghost use Rattle.job.specs.Mend.{mend_job_text};
ghost use Rattle.drafter.specs.Drafting.{pattern_job_text};

use kinds::{State, Value};
use rules::{Outline, RuleSet, Size, number_of};

// What is written of an outline under a refusal.
const NOTHING: Outline = Outline {
    size: Size {
        states: 0,
        values: 0,
        start: State(0),
    },
    accepting: 0,
};

// A rule set of what C lends.
fn rule_set<'a>(
    states: usize,
    values: usize,
    start: u8,
    targets: &'a [u8],
    costs: &'a [u16],
    accepting: u64,
) -> RuleSet<'a>
    ensures { (n : ℕ) → handed_in n result ≡ handed n states values start targets.now costs.now accepting }
{
    RuleSet {
        size: Size {
            states,
            values,
            start: State(start),
        },
        targets,
        costs,
        accepting,
    }
}

#[unsafe(no_mangle)]
pub extern "C" fn reedgosling_filter(
    places: usize,
    states: usize,
    values: usize,
    start: u8,
    targets: &[u8],
    costs: &[u16],
    accepting: u64,
    masks: &[u16],
    limits: &[u32],
    kept: &mut [u16],
    work: &mut [u32],
    least: &mut u32,
) -> u32
    ensures { left result least.new kept.new work.new ≡ filter_of (handed places states values start targets.now costs.now accepting) masks.now limits.now kept.old work.old }
{
    let rules = rule_set(states, values, start, targets, costs, accepting);
    let verdict = filter::filter(places, &rules, masks, limits, kept, work);
    *least = verdict.unwrap_or(0);
    u32::from(number_of(&verdict))
}

#[unsafe(no_mangle)]
pub extern "C" fn reedgosling_first_roster(
    places: usize,
    states: usize,
    values: usize,
    start: u8,
    targets: &[u8],
    costs: &[u16],
    accepting: u64,
    masks: &[u16],
    limits: &[u32],
    place: usize,
    value: u8,
    roster: &mut [u8],
    work: &mut [u32],
) -> u32
    ensures { given result roster.new work.new ≡ first_of (handed places states values start targets.now costs.now accepting) masks.now limits.now place value roster.old work.old }
{
    let rules = rule_set(states, values, start, targets, costs, accepting);
    let found = filter::first_roster(
        places,
        &rules,
        masks,
        limits,
        place,
        Value(value),
        roster,
        work,
    );
    u32::from(number_of(&found))
}

#[unsafe(no_mangle)]
pub extern "C" fn reedgosling_prefix_report(
    places: usize,
    states: usize,
    values: usize,
    start: u8,
    targets: &[u8],
    costs: &[u16],
    accepting: u64,
    roster: &[u8],
    report: &mut usize,
) -> u32
    ensures { outcome result report.new ≡ report_of (handed places states values start targets.now costs.now accepting) roster.now }
{
    let rules = rule_set(states, values, start, targets, costs, accepting);
    let reported = rules::prefix_report(places, &rules, roster);
    *report = reported.unwrap_or(0);
    u32::from(number_of(&reported))
}

#[unsafe(no_mangle)]
pub extern "C" fn reedgosling_mend(
    places: usize,
    states: usize,
    values: usize,
    start: u8,
    targets: &[u8],
    costs: &[u16],
    accepting: u64,
    masks: &[u16],
    limits: &[u32],
    drawn: &[u8],
    most: u32,
    roster: &mut [u8],
    work: &mut [u32],
    changes: &mut u32,
) -> u32
    ensures { planned result changes.new roster.new work.new ≡ mend_of (handed places states values start targets.now costs.now accepting) masks.now limits.now drawn.now most roster.old work.old }
{
    let rules = rule_set(states, values, start, targets, costs, accepting);
    let mended = planner::mend(places, &rules, masks, limits, drawn, most, roster, work);
    *changes = mended.unwrap_or(0);
    u32::from(number_of(&mended))
}

// A yes or no as a number.
fn told(says: bool) -> u8
    ensures { result ≡ cond says 1 0 }
{
    u8::from(says)
}

#[unsafe(no_mangle)]
pub extern "C" fn reedgosling_check(
    places: usize,
    states: usize,
    values: usize,
    start: u8,
    targets: &[u8],
    costs: &[u16],
    accepting: u64,
    masks: &[u16],
    limits: &[u32],
    drawn: &[u8],
    roster: &[u8],
    claimed: u32,
    says: &mut u8,
) -> u32
    ensures { (result ≡ (check_of (handed places states values start targets.now costs.now accepting) masks.now limits.now drawn.now roster.now claimed).answer) × (says.new ≡ cond (check_of (handed places states values start targets.now costs.now accepting) masks.now limits.now drawn.now roster.now claimed).says 1 0) }
{
    let rules = rule_set(states, values, start, targets, costs, accepting);
    let checked = checker::check_roster(places, &rules, masks, limits, drawn, roster, claimed);
    *says = told(checked.unwrap_or(false));
    u32::from(number_of(&checked))
}

#[unsafe(no_mangle)]
pub extern "C" fn reedgosling_read_sheet(
    text: &[u8],
    targets: &mut [u8],
    costs: &mut [u16],
    line: &mut usize,
    states: &mut usize,
    values: &mut usize,
    start: &mut u8,
    accepting: &mut u64,
) -> u32
    ensures { read_left result line.new states.new values.new start.new accepting.new targets.new costs.new ≡ read_of text.now targets.old costs.old }
{
    let read = sheet::read_sheet(text, targets, costs);
    let outline = read.unwrap_or(NOTHING);
    *states = outline.size.states;
    *values = outline.size.values;
    *start = outline.size.start.0;
    *accepting = outline.accepting;
    match read {
        Ok(_) => {
            *line = 0;
            0
        }
        Err(unread) => {
            *line = unread.line();
            u32::from(unread.answer().number())
        }
    }
}

#[unsafe(no_mangle)]
pub extern "C" fn reedgosling_read_pattern(
    line: &[u8],
    count: usize,
    targets: &mut [u8],
    costs: &mut [u16],
    states: &mut usize,
    values: &mut usize,
    start: &mut u8,
    accepting: &mut u64,
) -> u32
    ensures { pattern_left result states.new values.new start.new accepting.new targets.new costs.new ≡ pattern_of line.now count targets.old costs.old }
{
    let composed = compositor::read_pattern(line, count, targets, costs);
    let made = composed.unwrap_or(NOTHING);
    *states = made.size.states;
    *values = made.size.values;
    *start = made.size.start.0;
    *accepting = made.accepting;
    u32::from(number_of(&composed))
}

#[unsafe(no_mangle)]
pub extern "C" fn reedgosling_write_sheet(
    states: usize,
    values: usize,
    start: u8,
    targets: &[u8],
    costs: &[u16],
    accepting: u64,
    buffer: &mut [u8],
    length: &mut usize,
) -> u32
    ensures { write_left result length.new buffer.new ≡ write_of (rules_of states values targets.now costs.now accepting) start buffer.old }
{
    let rules = rule_set(states, values, start, targets, costs, accepting);
    let written = scribe::write_sheet(&rules, buffer);
    *length = written.unwrap_or(0);
    u32::from(number_of(&written))
}

#[unsafe(no_mangle)]
pub extern "C" fn reedgosling_open(
    places: usize,
    states: usize,
    values: usize,
    start: u8,
    targets: &[u8],
    costs: &[u16],
    accepting: u64,
    masks: &[u16],
    limits: &[u32],
    memory: &mut [u32],
    work: &mut [u32],
) -> u32
    ensures { left_in result memory.new work.new ≡ opened (handed places states values start targets.now costs.now accepting) (opening masks.now limits.now) memory.old work.old }
{
    let rules = rule_set(states, values, start, targets, costs, accepting);
    let done = session::open(places, &rules, masks, limits, memory, work);
    u32::from(number_of(&done))
}

#[unsafe(no_mangle)]
pub extern "C" fn reedgosling_keep(
    places: usize,
    states: usize,
    values: usize,
    start: u8,
    targets: &[u8],
    costs: &[u16],
    accepting: u64,
    memory: &mut [u32],
    work: &mut [u32],
    place: usize,
    mask: u16,
) -> u32
    ensures { left_in result memory.new work.new ≡ called (handed places states values start targets.now costs.now accepting) (deciding (Keep place mask)) memory.old work.old }
{
    let rules = rule_set(states, values, start, targets, costs, accepting);
    let done = session::keep(places, &rules, place, mask, memory, work);
    u32::from(number_of(&done))
}

#[unsafe(no_mangle)]
pub extern "C" fn reedgosling_limit(
    places: usize,
    states: usize,
    values: usize,
    start: u8,
    targets: &[u8],
    costs: &[u16],
    accepting: u64,
    memory: &mut [u32],
    work: &mut [u32],
    place: usize,
    cost: u32,
) -> u32
    ensures { left_in result memory.new work.new ≡ called (handed places states values start targets.now costs.now accepting) (deciding (Limit place cost)) memory.old work.old }
{
    let rules = rule_set(states, values, start, targets, costs, accepting);
    let done = session::limit(places, &rules, place, cost, memory, work);
    u32::from(number_of(&done))
}

#[unsafe(no_mangle)]
pub extern "C" fn reedgosling_mark(
    places: usize,
    states: usize,
    values: usize,
    start: u8,
    targets: &[u8],
    costs: &[u16],
    accepting: u64,
    memory: &mut [u32],
    work: &mut [u32],
) -> u32
    ensures { left_in result memory.new work.new ≡ called (handed places states values start targets.now costs.now accepting) marking memory.old work.old }
{
    let rules = rule_set(states, values, start, targets, costs, accepting);
    let done = session::mark(places, &rules, memory, work);
    u32::from(number_of(&done))
}

#[unsafe(no_mangle)]
pub extern "C" fn reedgosling_back(
    places: usize,
    states: usize,
    values: usize,
    start: u8,
    targets: &[u8],
    costs: &[u16],
    accepting: u64,
    memory: &mut [u32],
    work: &mut [u32],
) -> u32
    ensures { left_in result memory.new work.new ≡ called (handed places states values start targets.now costs.now accepting) going_back memory.old work.old }
{
    let rules = rule_set(states, values, start, targets, costs, accepting);
    let done = session::back(places, &rules, memory, work);
    u32::from(number_of(&done))
}

#[unsafe(no_mangle)]
pub extern "C" fn reedgosling_job(input: &[u8], output: &mut [u8]) -> usize
    ensures { Wrote output.old 0 (job_text input.now) output.new result }
{
    job::job(input, output)
}

#[unsafe(no_mangle)]
pub extern "C" fn reedgosling_mend_job(input: &[u8], output: &mut [u8]) -> usize
    ensures { Wrote output.old 0 (mend_job_text input.now) output.new result }
{
    job::mend_job(input, output)
}

#[unsafe(no_mangle)]
pub extern "C" fn reedgosling_pattern_job(input: &[u8], output: &mut [u8]) -> usize
    ensures { Wrote output.old 0 (pattern_job_text input.now) output.new result }
{
    drafter::pattern_job(input, output)
}
