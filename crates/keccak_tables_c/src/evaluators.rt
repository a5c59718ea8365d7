// The values and the tuples of a core row and of a round row, tuples by index and all at once.
ghost use Rattle.std.specs.Prelude.{◌≡◌};
ghost use Rattle.tuple.specs.Call.{tuple_answer_of, tuple_after};
ghost use Rattle.tuple.specs.Values.{values_answer, values_after};
ghost use Rattle.keccak.specs.Columns as core;
ghost use Rattle.keccak.specs.Values.{core_value};
ghost use Rattle.keccak.specs.Values as core-values;
ghost use Rattle.keccak.specs.TupleCalls.{core_tuple_answer, core_tuple_after};
ghost use Rattle.keccak_rnd.specs.Columns as round;
ghost use Rattle.keccak_rnd.specs.Values.{round_value};
ghost use Rattle.keccak_rnd.specs.Values as round-values;
ghost use Rattle.keccak_rnd.specs.Tuples.{round_tuple};
ghost use Rattle.keccak_rnd.specs.Tuples as round-tuples;
ghost use Rattle.keccak_interactions.specs.Words as core-words;
ghost use Rattle.keccak_rnd_interactions.specs.Words as round-words;
ghost use Rattle.flat.specs.Flat.{flat_answer, flat_tuple};

use flat::{FlatAnswer, FlatTuple};

#[unsafe(no_mangle)]
pub extern "C" fn keccak_tables_keccak_values(row: &[u64], out: &mut [u64]) -> FlatAnswer
    ensures answer { result ≡ flat_answer (values_answer core.NUM-COLUMNS core-values.NUM-VALUES row.now out.old) }
    ensures words { out.new ≡ values_after core.NUM-COLUMNS core-values.NUM-VALUES core_value row.now out.old }
{
    keccak_tables::evaluators::keccak_tables_keccak_values(row, out)
}

#[unsafe(no_mangle)]
pub extern "C" fn keccak_tables_keccak_rnd_values(row: &[u64], out: &mut [u64]) -> FlatAnswer
    ensures answer { result ≡ flat_answer (values_answer round.NUM-COLUMNS round-values.NUM-VALUES row.now out.old) }
    ensures words { out.new ≡ values_after round.NUM-COLUMNS round-values.NUM-VALUES round_value row.now out.old }
{
    keccak_tables::evaluators::keccak_tables_keccak_rnd_values(row, out)
}

#[unsafe(no_mangle)]
pub extern "C" fn keccak_tables_keccak_bus_interaction(
    nr: u64,
    row: &[u64],
    index: usize,
    syscall: u64,
    out: &mut [u64],
) -> FlatTuple
    ensures answer { result ≡ flat_tuple (core_tuple_answer nr syscall row.now index out.old) }
    ensures words { out.new ≡ core_tuple_after nr syscall row.now index out.old }
{
    keccak_tables::evaluators::keccak_tables_keccak_bus_interaction(nr, row, index, syscall, out)
}

#[unsafe(no_mangle)]
pub extern "C" fn keccak_tables_keccak_rnd_bus_interaction(
    row: &[u64],
    index: usize,
    out: &mut [u64],
) -> FlatTuple
    ensures answer { result ≡ flat_tuple (tuple_answer_of round.NUM-COLUMNS round-tuples.NUM-TUPLES round_tuple row.now index out.old) }
    ensures words { out.new ≡ tuple_after round.NUM-COLUMNS round-tuples.NUM-TUPLES round_tuple row.now index out.old }
{
    keccak_tables::evaluators::keccak_tables_keccak_rnd_bus_interaction(row, index, out)
}

#[unsafe(no_mangle)]
pub extern "C" fn keccak_tables_keccak_bus_interactions(
    nr: u64,
    row: &[u64],
    syscall: u64,
    out: &mut [u64],
) -> FlatAnswer
    ensures answer { result ≡ flat_answer (core-words.core_tuples_answer nr row.now out.old) }
    ensures words { out.new ≡ core-words.core_tuples_after nr syscall row.now out.old }
{
    keccak_tables::evaluators::keccak_tables_keccak_bus_interactions(nr, row, syscall, out)
}

#[unsafe(no_mangle)]
pub extern "C" fn keccak_tables_keccak_rnd_bus_interactions(
    row: &[u64],
    out: &mut [u64],
) -> FlatAnswer
    ensures answer { result ≡ flat_answer (values_answer round.NUM-COLUMNS round-words.NUM-WORDS row.now out.old) }
    ensures words { out.new ≡ round-words.round_tuples_after row.now out.old }
{
    keccak_tables::evaluators::keccak_tables_keccak_rnd_bus_interactions(row, out)
}
