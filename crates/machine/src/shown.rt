// What is shown: the result, the least cost and the kept masks.
ghost use Rattle.std.specs.Prelude.{◌≡◌, ◌++◌, ◌≤◌, nat_eq, length, take, drop};
ghost use Rattle.std.specs.List.{list_all, zip};
ghost use Rattle.meaning.specs.Meaning.{verdict};
ghost use Rattle.rules.specs.Answers.{answer_of, carried};
ghost use Rattle.ledger.specs.Layout.{shown_size};
ghost use Rattle.ledger.specs.Memory.{same, shown_of};

use crate::{layout, lists};
use rules::{Answer, number_of};

// Whether the numbers are those of the masks, as far as both go.
fn same_masks(numbers: &[u32], masks: &[u16]) -> bool
    ensures { result ≡ list_all (λ p. nat_eq p.0 p.1) (zip numbers.now masks.now) }
{
    numbers
        .iter()
        .zip(masks)
        .all(|(number, mask)| *number == u32::from(*mask))
}

// Whether this is shown at the front of memory.
#[tactic(auto, using(crate::proofs::Shows::shown_by))]
pub(crate) fn same_shown(fresh: Result<u32, Answer>, kept: &[u16], memory: &[u32]) -> bool
    requires { shown_size (length kept.now) ≤ length memory.now }
    ensures { result ≡ same (take (shown_size (length kept.now)) memory.now) (shown_of (verdict (answer_of fresh) kept.now (carried fresh))) }
{
    let answer = u32::from(number_of(&fresh));
    let least = fresh.unwrap_or(0);
    let front = kept.len() + layout::SHOWN;
    memory[layout::RESULT] == answer
        && memory[layout::LEAST] == least
        && same_masks(&memory[layout::SHOWN..front], kept)
}

// Shows this at the front of memory.
pub(crate) fn show(fresh: Result<u32, Answer>, kept: &[u16], memory: &mut [u32])
    requires { shown_size (length kept.now) ≤ length memory.old }
    ensures { memory.new ≡ shown_of (verdict (answer_of fresh) kept.now (carried fresh)) ++ drop (shown_size (length kept.now)) memory.old }
{
    let front = kept.len() + layout::SHOWN;
    lists::widen(&mut memory[layout::SHOWN..front], kept);
    memory[layout::RESULT] = u32::from(number_of(&fresh));
    memory[layout::LEAST] = fresh.unwrap_or(0);
}
