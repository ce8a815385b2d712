// Rule sets as they are lent: the answers, the checks that every call shares, and the prefix report.
#![tactic(auto)]

ghost use Rattle.std.specs.Prelude.{◌≡◌, true, [], ◌^◌, ◌≤◌, ◌<◌, length};
ghost use Rattle.meaning.specs.Bounds.{most_places, most_states, most_values, table_size};
ghost use Rattle.meaning.specs.Meaning.{rules_of};
ghost use Rattle.meaning.specs.Prefixes.{accepted_words};
ghost use Rattle.rules.specs.Inner.{report_rest};
ghost use Rattle.rules.specs.Report.{outcome, values_right, report_of};
ghost use Rattle.rules.specs.Checks.{handed_in, size_right, sizes_right, tables_long, rules_right, masks_right, rule_checks};
ghost use Rattle.rules.specs.Answers.{number_of, answer_of, carried, decided};

pub mod arcs;
pub mod bounds;
pub mod finish;
pub mod numbers;
pub mod steps;

use kinds::{Mask, State};

// The answers of the calls but 0, with the paper's numbers: what a call's `Err` says.
#[derive(Clone, Copy, PartialEq, Eq)]
pub enum Answer {
    WrongSize,
    WrongLength,
    WrongTables,
    WrongMask,
    WrongSheet,
    ShortBuffer,
    OutOfRange,
    DecisionsFull,
    MarksFull,
    NoMark,
    NoRoster,
    WrongMemory,
    NumberOutside,
    ManyStates,
    WrongPattern,
}

impl Answer {
    // A match, and no discriminants: that two answers have two numbers is then a fact that the contract holds, and not one of the type.
    pub fn number(self) -> u8
        ensures { result ≡ number_of self }
    {
        match self {
            Answer::WrongSize => 1,
            Answer::WrongLength => 2,
            Answer::WrongTables => 3,
            Answer::WrongMask => 4,
            Answer::WrongSheet => 5,
            Answer::ShortBuffer => 6,
            Answer::OutOfRange => 7,
            Answer::DecisionsFull => 8,
            Answer::MarksFull => 9,
            Answer::NoMark => 10,
            Answer::NoRoster => 11,
            Answer::WrongMemory => 12,
            Answer::NumberOutside => 13,
            Answer::ManyStates => 14,
            Answer::WrongPattern => 15,
        }
    }
}

// The paper's number of what a call gives: 0 where it is done.
pub fn number_of<T>(given: &Result<T, Answer>) -> u8
    ensures { result ≡ answer_of given.now }
{
    match given {
        Ok(_) => 0,
        Err(answer) => answer.number(),
    }
}

// What a sheet's size line says: the numbers of states and of values, and the start.
#[derive(Clone, Copy, PartialEq, Eq)]
pub struct Size {
    pub states: usize,
    pub values: usize,
    pub start: State,
}

// What a rule set has besides its tables: what a reader of a sheet or of a pattern gives.
#[derive(Clone, Copy)]
pub struct Outline {
    pub size: Size,
    pub accepting: u64,
}

// A rule set as it is lent: nothing is known of it yet.
#[derive(Clone, Copy)]
pub struct RuleSet<'a> {
    pub size: Size,
    pub targets: &'a [u8],
    pub costs: &'a [u16],
    pub accepting: u64,
}

impl RuleSet<'_> {
    // The checks of answers 1, 2 and 3, which every call makes first. `long` says whether the slices beside the tables have their lengths.
    #[tactic(auto, unfolding(crate::specs::Answers::decided, crate::specs::Checks::sizes_right, crate::specs::Checks::rules_right))]
    pub fn checked(&self, places: usize, long: bool) -> Result<(), Answer>
        ensures { answer_of result ≡ decided (rule_checks (handed_in places self.now) long []) (λ n. n) 0 }
    {
        if !sizes_right(places, self.size) {
            return Err(Answer::WrongSize);
        }
        if !(tables_long(self.targets, self.costs) && long) {
            return Err(Answer::WrongLength);
        }
        if !rules_right(self) {
            return Err(Answer::WrongTables);
        }
        Ok(())
    }
}

// Whether Q, V and start are in range.
#[tactic(auto, unfolding(crate::specs::Checks::size_right))]
pub fn size_right(size: Size) -> bool
    ensures { result ≡ size_right size.states size.values size.start.0 }
{
    1 <= size.states
        && size.states <= bounds::MOST_STATES
        && 1 <= size.values
        && size.values <= bounds::MOST_VALUES
        && usize::from(size.start) < size.states
}

// Whether n, Q, V and start are in range: else answer 1.
#[tactic(auto, unfolding(crate::specs::Checks::sizes_right))]
pub fn sizes_right(places: usize, size: Size) -> bool
    ensures { result ≡ sizes_right places size.states size.values size.start.0 }
{
    1 <= places && places <= bounds::MOST_PLACES && size_right(size)
}

// Whether the rule tables have their length: else answer 2.
#[tactic(auto, unfolding(crate::specs::Checks::tables_long))]
pub fn tables_long(targets: &[u8], costs: &[u16]) -> bool
    ensures { result ≡ tables_long targets.now costs.now }
{
    targets.len() == bounds::TABLE_SIZE && costs.len() == bounds::TABLE_SIZE
}

// Whether a rule set passes the checks of answers 1, 2 and 3. A caller that has made the first two learns of the third.
#[tactic(auto, unfolding(crate::specs::Checks::rules_right), using(crate::proofs::Checks::size_of_lem, crate::proofs::Checks::long_tables))]
pub fn rules_right(rules: &RuleSet<'_>) -> bool
    ensures { result ≡ rules_right rules.now.size.states rules.now.size.values rules.now.size.start.0 rules.now.targets.now rules.now.costs.now rules.now.accepting }
{
    let size = rules.size;
    size_right(size) && tables_long(rules.targets, rules.costs) && arcs::tables_right(rules)
}

// Whether no choice mask has a bit at or above V: else answer 4.
pub fn masks_right(values: usize, masks: &[u16]) -> bool
    ensures { result ≡ masks_right values masks.now }
{
    masks.iter().all(|mask| Mask(*mask).within(values))
}

// The report of a roster that has passed the checks before 11.
fn report_drawn(rules: &RuleSet<'_>, roster: &[u8]) -> Result<usize, Answer>
    requires { (rules.now.size.states ≤ most_states) × (rules.now.size.values ≤ most_values) × (length rules.now.targets.now ≡ table_size) × (rules.now.accepting < 2 ^ rules.now.size.states) × (rules.now.size.start.0 < rules.now.size.states) × (length roster.now ≤ most_places) × (values_right rules.now.size.values roster.now ≡ true) }
    ensures { outcome (answer_of result) (carried result) ≡ report_rest roster.now (accepted_words (rules_of rules.now.size.states rules.now.size.values rules.now.targets.now [] rules.now.accepting) rules.now.size.start.0 (length roster.now)) }
{
    let size = rules.size;
    let arcs = arcs::Arcs {
        states: size.states,
        values: size.values,
        targets: rules.targets,
    };
    let mut layers = [0u64; bounds::MOST_PLACES];
    let layers = &mut layers[..roster.len()];
    let first = finish::lay(&arcs, rules.accepting, layers);
    if !finish::holds(first, size.start) {
        return Err(Answer::NoRoster);
    }
    let made = steps::steps_made(&arcs, layers, size.start, roster);
    Ok(roster.len() - made)
}

// The prefix report: n less the length of the longest prefix of the roster that an accepted word of n values begins with.
pub fn prefix_report(places: usize, rules: &RuleSet<'_>, roster: &[u8]) -> Result<usize, Answer>
    ensures { outcome (answer_of result) (carried result) ≡ report_of (handed_in places rules.now) roster.now }
{
    rules.checked(places, roster.len() == places)?;
    if !steps::values_right(rules.size.values, roster) {
        return Err(Answer::OutOfRange);
    }
    report_drawn(rules, roster)
}
