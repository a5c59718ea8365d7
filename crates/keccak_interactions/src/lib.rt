// tables/keccak.rs, bus_interactions: the 84 tuples of a core row, all at once.
#![tactic(auto)]

ghost use Rattle.std.specs.Prelude.{◌≡◌, ◌+◌, ◌<◌, ◌≤◌, length};
ghost use Rattle.std.proofs.lemmas.List.Edits.{sets};
ghost use Rattle.field.specs.Elements.{ElementRow};
ghost use Rattle.tuple.specs.Words.{tuple_words, tuples_words};
ghost use Rattle.keccak.specs.Columns.{NUM-COLUMNS};
ghost use Rattle.keccak.specs.Tuples.{NUM-TUPLES, core_tuple};
ghost use Rattle.keccak_interactions.specs.Words.{NUM-WORDS, core_tuples_answer, core_tuples_after};

use answer::{Refusal, check_rounds};
use keccak::{NUM_COLUMNS, NUM_TUPLES};
use keccak_tuples::row_tuple;
use tuple::check::check_values;
use tuple::header::put_header;

// Four words for each tuple, and its values.
pub const NUM_WORDS: usize = 1457;

// Tuple `index`, from `at`; where the next one goes.
fn put_tuple(
    nr: usize,
    row: &[u64],
    index: usize,
    syscall: u64,
    out: &mut [u64],
    at: usize,
) -> usize
    requires { ElementRow NUM-COLUMNS row.now × (index < NUM-TUPLES) × (at + length (tuple_words (core_tuple nr syscall row.now index)) ≤ length out.old) }
    ensures next { result ≡ at + length (tuple_words (core_tuple nr syscall row.now index)) }
    ensures words { out.new ≡ sets out.old at (tuple_words (core_tuple nr syscall row.now index)) }
{
    let from = at + 4;
    let tuple = row_tuple(nr, row, index, syscall, &mut out[from..]);
    put_header(out, at, tuple);
    from + tuple.length
}

// The tuples of a row that the checks passed, from the front of `out`.
fn put_tuples(nr: usize, row: &[u64], syscall: u64, out: &mut [u64])
    requires { ElementRow NUM-COLUMNS row.now × (NUM-WORDS ≤ length out.old) }
    ensures { out.new ≡ sets out.old 0 (tuples_words (core_tuple nr syscall row.now) NUM-TUPLES) }
{
    let mut at: usize = 0;
    for i in 0..NUM_TUPLES {
        at = put_tuple(nr, row, i, syscall, out, at);
    }
}

// The tuples of a core row, of nr rounds, whoever filled it: its columns are checked once. The syscall number is handed
// over.
pub fn bus_interactions(nr: u64, row: &[u64], syscall: u64, out: &mut [u64]) -> Result<(), Refusal>
    ensures answer { result ≡ core_tuples_answer nr row.now out.old }
    ensures words { out.new ≡ core_tuples_after nr syscall row.now out.old }
{
    check_rounds(nr)?;
    let room = out.len();
    check_values(NUM_COLUMNS, NUM_WORDS, row, room)?;
    put_tuples(nr as usize, row, syscall, out);
    Ok(())
}
