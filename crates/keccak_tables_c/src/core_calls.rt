// The core table: a row, the table of a list of operations, its rows alone, the keys of its pointers, its height.
ghost use Rattle.std.specs.Prelude.{◌≡◌, length};
ghost use Rattle.answer.specs.Refusal.{answer_of, number_of};
ghost use Rattle.keccak.specs.Height.{height};
ghost use Rattle.keccak.specs.Refusals.{core_row_refusal, core_trace_refusal, core_rows_refusal, keys_refusal, core_count_refusal};
ghost use Rattle.keccak.specs.Calls.{core_row_after, core_trace_after, core_rows_after, keys_after};
ghost use Rattle.flat.specs.Flat.{flat_answer, flat_number};

use flat::{FlatAnswer, FlatNumber};

#[unsafe(no_mangle)]
pub extern "C" fn keccak_tables_keccak_row(ops: &[u64], index: usize, row: &mut [u64]) -> FlatAnswer
    ensures answer { result ≡ flat_answer (answer_of (core_row_refusal (length row.old) ops.now index)) }
    ensures words { row.new ≡ core_row_after ops.now index row.old }
{
    keccak_tables::core_calls::keccak_tables_keccak_row(ops, index, row)
}

#[unsafe(no_mangle)]
pub extern "C" fn keccak_tables_generate_keccak_trace(
    floor: u64,
    ops: &[u64],
    table: &mut [u64],
) -> FlatAnswer
    ensures answer { result ≡ flat_answer (answer_of (core_trace_refusal floor (length table.old) ops.now)) }
    ensures words { table.new ≡ core_trace_after floor ops.now table.old }
{
    keccak_tables::core_calls::keccak_tables_generate_keccak_trace(floor, ops, table)
}

#[unsafe(no_mangle)]
pub extern "C" fn keccak_tables_keccak_rows(ops: &[u64], table: &mut [u64]) -> FlatAnswer
    ensures answer { result ≡ flat_answer (answer_of (core_rows_refusal (length table.old) ops.now)) }
    ensures words { table.new ≡ core_rows_after ops.now table.old }
{
    keccak_tables::core_calls::keccak_tables_keccak_rows(ops, table)
}

#[unsafe(no_mangle)]
pub extern "C" fn keccak_tables_is_wh_keys(ops: &[u64], out: &mut [u64]) -> FlatAnswer
    ensures answer { result ≡ flat_answer (answer_of (keys_refusal (length out.old) ops.now)) }
    ensures words { out.new ≡ keys_after ops.now out.old }
{
    keccak_tables::core_calls::keccak_tables_is_wh_keys(ops, out)
}

#[unsafe(no_mangle)]
pub extern "C" fn keccak_tables_keccak_height(floor: u64, n: usize) -> FlatNumber
    ensures { result ≡ flat_number (number_of (height floor n) (core_count_refusal floor n)) }
{
    keccak_tables::core_calls::keccak_tables_keccak_height(floor, n)
}
