// What the calls share: a decision in range is taken, and the result on hand is an answer.
ghost use Rattle.std.specs.Prelude.{◌≡◌, true, cond, eqb};
ghost use Rattle.rules.specs.Checks.{handed_in};
ghost use Rattle.rules.specs.Answers.{answer_of};
ghost use Rattle.meaning.specs.Meaning.{Keep};
ghost use Rattle.ledger.specs.Sessions.{is_mark, decision_right};
ghost use Rattle.ledger.specs.Readiness.{left};
ghost use Rattle.ledger.specs.Memory.{entry_of, row_right};
ghost use Rattle.session.specs.Inner.{Formed, decided_on};

use crate::entries;
use kinds::Mask;
use machine::layout;
use machine::rows::Row;
use rules::{Answer, RuleSet};

// Whether a keep's place and mask are in range.
#[tactic(auto, unfolding(ledger::specs::Sessions::decision_right))]
pub(crate) fn keep_right(places: usize, values: usize, place: usize, mask: Mask) -> bool
    ensures { result ≡ decision_right places values (Keep place mask.0) }
{
    place < places && mask.within(values)
}

// The result on hand.
pub(crate) fn on_hand(res: u32) -> Result<(), Answer>
    ensures { answer_of result ≡ cond (eqb res 0) 0 11 }
{
    if res == 0 {
        Ok(())
    } else {
        Err(Answer::NoRoster)
    }
}

// Takes a decision in range, unless as many stand as may.
pub(crate) fn decide(
    places: usize,
    rules: &RuleSet<'_>,
    row: Row,
    memory: &mut [u32],
    work: &mut [u32],
) -> Result<(), Answer>
    requires { Formed (handed_in places rules.now) memory.old work.old × (row_right places rules.now.size.values row.kind row.place row.amount ≡ true) × (is_mark (entry_of row.kind row.place row.amount) ≡ 0) }
    ensures { left (answer_of result) memory.new work.new ≡ decided_on (handed_in places rules.now) (entry_of row.kind row.place row.amount) memory.old work.old }
{
    let front = places + layout::SHOWN;
    if layout::MOST_DECISIONS <= memory[front + layout::DECISIONS] {
        return Err(Answer::DecisionsFull);
    }
    entries::push(&mut memory[front..], row);
    machine::renew(places, rules, memory, work)
}
