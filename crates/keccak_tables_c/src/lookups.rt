// The tables that are looked up: bitwise rows and their counters, round constants, IS_WH keys.
ghost use Rattle.std.specs.Prelude.{◌≡◌};
ghost use Rattle.answer.specs.Refusal.{answer_of, number_of};
ghost use Rattle.tuple.specs.Call.{tuple_answer_of, tuple_after};
ghost use Rattle.bitwise.specs.Columns as bitwise;
ghost use Rattle.bitwise.specs.Row.{row-index, index_refusal};
ghost use Rattle.bitwise.specs.Row as bitwise-row;
ghost use Rattle.bitwise.specs.Counters.{bump_refusal, bump_after};
ghost use Rattle.bitwise.specs.Tuples.{bitwise_tuple};
ghost use Rattle.keccak_rc.specs.Columns as rc;
ghost use Rattle.keccak_rc.specs.Row as rc-row;
ghost use Rattle.keccak_rc.specs.Table.{rc_trace_refusal, update_refusal, rc_trace_after, update_after};
ghost use Rattle.keccak_rc.specs.Tuples as rc-tuples;
ghost use Rattle.is_wh.specs.Columns as is-wh;
ghost use Rattle.is_wh.specs.Key.{of-dword};
ghost use Rattle.is_wh.specs.Tuples.{is_wh_tuple};
ghost use Rattle.is_wh.specs.Tuples as is-wh-tuples;
ghost use Rattle.flat.specs.Flat.{flat_answer, flat_number, flat_tuple, flat_key};

use flat::{FlatAnswer, FlatKey, FlatNumber, FlatTuple};

#[unsafe(no_mangle)]
pub extern "C" fn keccak_tables_generate_bitwise_row(index: usize, row: &mut [u64]) -> FlatAnswer
    ensures answer { result ≡ flat_answer (answer_of (bitwise-row.bitwise_row_refusal index row.old)) }
    ensures words { row.new ≡ bitwise-row.bitwise_row_after index row.old }
{
    keccak_tables::lookups::keccak_tables_generate_bitwise_row(index, row)
}

#[unsafe(no_mangle)]
pub extern "C" fn keccak_tables_bitwise_row_index(x: u8, y: u8, z: u8) -> FlatNumber
    ensures { result ≡ flat_number (number_of (row-index x y z) (index_refusal z)) }
{
    keccak_tables::lookups::keccak_tables_bitwise_row_index(x, y, z)
}

#[unsafe(no_mangle)]
pub extern "C" fn keccak_tables_bitwise_bump(
    counters: &mut [u64],
    kind: usize,
    x: u8,
    y: u8,
    z: u8,
) -> FlatAnswer
    ensures answer { result ≡ flat_answer (answer_of (bump_refusal counters.old kind x y z)) }
    ensures words { counters.new ≡ bump_after counters.old kind x y z }
{
    keccak_tables::lookups::keccak_tables_bitwise_bump(counters, kind, x, y, z)
}

#[unsafe(no_mangle)]
pub extern "C" fn keccak_tables_bitwise_bus_interaction(
    row: &[u64],
    index: usize,
    out: &mut [u64],
) -> FlatTuple
    ensures answer { result ≡ flat_tuple (tuple_answer_of bitwise.NUM-COLUMNS bitwise.NUM-LOOKUP-TYPES bitwise_tuple row.now index out.old) }
    ensures words { out.new ≡ tuple_after bitwise.NUM-COLUMNS bitwise.NUM-LOOKUP-TYPES bitwise_tuple row.now index out.old }
{
    keccak_tables::lookups::keccak_tables_bitwise_bus_interaction(row, index, out)
}

#[unsafe(no_mangle)]
pub extern "C" fn keccak_tables_keccak_rc_generate_row(round: usize, out: &mut [u64]) -> FlatAnswer
    ensures answer { result ≡ flat_answer (answer_of (rc-row.rc_row_refusal round out.old)) }
    ensures words { out.new ≡ rc-row.rc_row_after round out.old }
{
    keccak_tables::lookups::keccak_tables_keccak_rc_generate_row(round, out)
}

#[unsafe(no_mangle)]
pub extern "C" fn keccak_tables_generate_keccak_rc_trace(table: &mut [u64]) -> FlatAnswer
    ensures answer { result ≡ flat_answer (answer_of (rc_trace_refusal table.old)) }
    ensures words { table.new ≡ rc_trace_after table.old }
{
    keccak_tables::lookups::keccak_tables_generate_keccak_rc_trace(table)
}

#[unsafe(no_mangle)]
pub extern "C" fn keccak_tables_keccak_rc_update_multiplicities(
    nr: u64,
    table: &mut [u64],
    n: u64,
) -> FlatAnswer
    ensures answer { result ≡ flat_answer (answer_of (update_refusal nr table.old n)) }
    ensures words { table.new ≡ update_after nr table.old n }
{
    keccak_tables::lookups::keccak_tables_keccak_rc_update_multiplicities(nr, table, n)
}

#[unsafe(no_mangle)]
pub extern "C" fn keccak_tables_keccak_rc_bus_interaction(
    row: &[u64],
    index: usize,
    out: &mut [u64],
) -> FlatTuple
    ensures answer { result ≡ flat_tuple (tuple_answer_of rc.NUM-COLUMNS rc-tuples.NUM-TUPLES rc-tuples.rc_tuple row.now index out.old) }
    ensures words { out.new ≡ tuple_after rc.NUM-COLUMNS rc-tuples.NUM-TUPLES rc-tuples.rc_tuple row.now index out.old }
{
    keccak_tables::lookups::keccak_tables_keccak_rc_bus_interaction(row, index, out)
}

#[unsafe(no_mangle)]
pub extern "C" fn keccak_tables_is_wh_key(value: u64) -> FlatKey
    ensures { result ≡ flat_key (of-dword value) }
{
    keccak_tables::lookups::keccak_tables_is_wh_key(value)
}

#[unsafe(no_mangle)]
pub extern "C" fn keccak_tables_is_wh_bus_interaction(
    row: &[u64],
    index: usize,
    out: &mut [u64],
) -> FlatTuple
    ensures answer { result ≡ flat_tuple (tuple_answer_of is-wh.NUM-COLUMNS is-wh-tuples.NUM-TUPLES is_wh_tuple row.now index out.old) }
    ensures words { out.new ≡ tuple_after is-wh.NUM-COLUMNS is-wh-tuples.NUM-TUPLES is_wh_tuple row.now index out.old }
{
    keccak_tables::lookups::keccak_tables_is_wh_bus_interaction(row, index, out)
}
