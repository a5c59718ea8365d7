// Keccak-p[1600, nr] of a state that is lent, with the checks of a call; where nr is 24 it is Keccak-f[1600].
#![tactic(auto)]

ghost use Rattle.std.specs.Prelude.{◌≡◌, ◌≤◌, length};
ghost use Rattle.std.proofs.lemmas.List.Edits.{sets};
ghost use Rattle.answer.specs.Refusal.{answer_of};
ghost use Rattle.keccak_f.specs.KeccakF.{LANES, permuted, state_refusal, state_after};

use answer::{Refusal, check_rounds};
use lists::put_words;
use operations::lanes_at;
use permutation::State;

// The lanes of a state.
const LANES: usize = 25;

// The rounds 24 - nr to 23 of the first 25 words.
fn put_permuted(nr: usize, state: &mut [u64])
    requires { (nr ≤ 24) × (LANES ≤ length state.old) }
    ensures { state.new ≡ sets state.old 0 (permuted nr state.old) }
{
    let lanes = lanes_at(state, 0);
    let before = State { lanes };
    let after = before.keccak_p(nr);
    let words = after.lanes;
    put_words(state, 0, &words, LANES);
}

pub fn keccak_f(nr: u64, state: &mut [u64]) -> Result<(), Refusal>
    ensures answer { result ≡ answer_of (state_refusal nr (length state.old)) }
    ensures words { state.new ≡ state_after nr state.old }
{
    check_rounds(nr)?;
    if state.len() < LANES {
        return Err(Refusal::TooShort(LANES as u64));
    }
    put_permuted(nr as usize, state);
    Ok(())
}
