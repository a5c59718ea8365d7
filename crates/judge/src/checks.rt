// The checks of a core table and a round table that are judged.
ghost use Rattle.std.specs.Prelude.{◌≡◌};
ghost use Rattle.answer.specs.Refusal.{accepted, answer_of};
ghost use Rattle.judge.specs.Checks.{not_rows, not_words};

use answer::Refusal;
use field::elements::first_not_element;
use keccak;
use keccak_rnd;

// Both are whole rows.
#[tactic(auto, unfolding(verdict::specs::Verdict::ragged, answer::specs::Refusal::refuse_if, answer::specs::Refusal::answer_of))]
pub fn check_rows(core: &[u64], round: &[u64]) -> Result<(), Refusal>
    ensures { result ≡ answer_of (not_rows core.now round.now accepted) }
{
    if core.len() % keccak::NUM_COLUMNS != 0 {
        return Err(Refusal::NotWhole(0));
    }
    if round.len() % keccak_rnd::NUM_COLUMNS != 0 {
        return Err(Refusal::NotWhole(1));
    }
    Ok(())
}

// Each of their words is a field element.
pub fn check_words(core: &[u64], round: &[u64]) -> Result<(), Refusal>
    ensures { result ≡ answer_of (not_words core.now round.now accepted) }
{
    if let Some(k) = first_not_element(core, core.len()) {
        return Err(Refusal::NotElement(k as u64));
    }
    if let Some(k) = first_not_element(round, round.len()) {
        return Err(Refusal::NotElement(k as u64));
    }
    Ok(())
}
