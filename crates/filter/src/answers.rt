// The checks of a call that is lent masks, limits, a slice to write and a work table.
ghost use Rattle.std.specs.Prelude.{◌≡◌, [], ◌&&◌, ltb, leb, length};
ghost use Rattle.meaning.specs.Bounds.{most_places};
ghost use Rattle.rules.specs.Checks.{handed_in};
ghost use Rattle.rules.specs.Answers.{number_of, answer_of, decided, work_after};
ghost use Rattle.filter.specs.Filter.{lengths_right, pass_checks};

use kinds::Value;
use rules::{Answer, RuleSet, bounds, masks_right};

// Whether each lent slice has its length: else answer 2. More places than a call can have are answer 1 before that.
#[tactic(auto, unfolding(crate::specs::Filter::lengths_right))]
pub(crate) fn lengths_right(
    places: usize,
    masks: usize,
    limits: usize,
    out: usize,
    work: usize,
) -> bool
    ensures { result ≡ (leb places most_places && lengths_right places masks limits out work) }
{
    places <= bounds::MOST_PLACES
        && masks == places
        && limits == places
        && out == places
        && work == (places + 1) * bounds::MOST_STATES
}

// The same answer; a refusal above 2 leaves the work table all zeros.
pub(crate) fn refused(answer: Answer, work: &mut [u32]) -> Answer
    ensures { (result ≡ answer) × (work.new ≡ work_after (number_of answer) work.old) }
{
    if 2 < answer.number() {
        work.fill(0);
    }
    answer
}

// The checks of the answers 1 to 4, which both calls make first.
pub(crate) fn checked(
    places: usize,
    rules: &RuleSet<'_>,
    masks: &[u16],
    limits: &[u32],
    out: usize,
    work: &mut [u32],
) -> Result<(), Answer>
    ensures { (answer_of result ≡ decided (pass_checks (handed_in places rules.now) masks.now limits.now out (length work.old) []) (λ n. n) 0) × (work.new ≡ work_after (answer_of result) work.old) }
{
    let long = lengths_right(places, masks.len(), limits.len(), out, work.len());
    if let Err(answer) = rules.checked(places, long) {
        return Err(refused(answer, work));
    }
    if !masks_right(rules.size.values, masks) {
        return Err(refused(Answer::WrongMask, work));
    }
    Ok(())
}

// Whether a place and a value are in range: else answer 7.
pub(crate) fn in_range(places: usize, values: usize, place: usize, value: Value) -> bool
    ensures { result ≡ (ltb place places && ltb value.0 values) }
{
    place < places && usize::from(value) < values
}
