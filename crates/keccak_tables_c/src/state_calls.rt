// The permutation of a state by itself.
ghost use Rattle.std.specs.Prelude.{◌≡◌, length};
ghost use Rattle.answer.specs.Refusal.{answer_of};
ghost use Rattle.keccak_f.specs.KeccakF.{state_refusal, state_after};
ghost use Rattle.flat.specs.Flat.{flat_answer};

use flat::FlatAnswer;

#[unsafe(no_mangle)]
pub extern "C" fn keccak_tables_keccak_f(nr: u64, state: &mut [u64]) -> FlatAnswer
    ensures answer { result ≡ flat_answer (answer_of (state_refusal nr (length state.old))) }
    ensures words { state.new ≡ state_after nr state.old }
{
    keccak_tables::state_calls::keccak_tables_keccak_f(nr, state)
}
