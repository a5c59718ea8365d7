// The round table: a row, the table of a list of operations, its rows alone, its height, its padding's lookups.
ghost use Rattle.std.specs.Prelude.{◌≡◌, length};
ghost use Rattle.answer.specs.Refusal.{answer_of, number_of};
ghost use Rattle.keccak_rnd.specs.Row.{round_height, padding-are-bytes};
ghost use Rattle.keccak_rnd.specs.Refusals.{round_row_refusal, round_trace_refusal, round_rows_refusal, round_count_refusal};
ghost use Rattle.keccak_rnd.specs.Calls.{round_row_after, round_trace_after, round_rows_after};
ghost use Rattle.flat.specs.Flat.{flat_answer, flat_number};

use flat::{FlatAnswer, FlatNumber};

#[unsafe(no_mangle)]
pub extern "C" fn keccak_tables_keccak_rnd_row(
    timestamp: u64,
    start: &[u64],
    round: usize,
    row: &mut [u64],
) -> FlatAnswer
    ensures answer { result ≡ flat_answer (answer_of (round_row_refusal round start.now row.old)) }
    ensures words { row.new ≡ round_row_after timestamp start.now round row.old }
{
    keccak_tables::round_calls::keccak_tables_keccak_rnd_row(timestamp, start, round, row)
}

#[unsafe(no_mangle)]
pub extern "C" fn keccak_tables_generate_keccak_rnd_trace(
    nr: u64,
    floor: u64,
    ops: &[u64],
    table: &mut [u64],
) -> FlatAnswer
    ensures answer { result ≡ flat_answer (answer_of (round_trace_refusal nr floor (length table.old) ops.now)) }
    ensures words { table.new ≡ round_trace_after nr floor ops.now table.old }
{
    keccak_tables::round_calls::keccak_tables_generate_keccak_rnd_trace(nr, floor, ops, table)
}

#[unsafe(no_mangle)]
pub extern "C" fn keccak_tables_keccak_rnd_rows(
    nr: u64,
    ops: &[u64],
    table: &mut [u64],
) -> FlatAnswer
    ensures answer { result ≡ flat_answer (answer_of (round_rows_refusal nr (length table.old) ops.now)) }
    ensures words { table.new ≡ round_rows_after nr ops.now table.old }
{
    keccak_tables::round_calls::keccak_tables_keccak_rnd_rows(nr, ops, table)
}

#[unsafe(no_mangle)]
pub extern "C" fn keccak_tables_keccak_rnd_height(nr: u64, floor: u64, n: usize) -> FlatNumber
    ensures { result ≡ flat_number (number_of (round_height nr floor n) (round_count_refusal nr floor n)) }
{
    keccak_tables::round_calls::keccak_tables_keccak_rnd_height(nr, floor, n)
}

#[unsafe(no_mangle)]
pub extern "C" fn keccak_tables_padding_are_bytes(nr: u64, floor: u64, n: usize) -> FlatNumber
    ensures { result ≡ flat_number (number_of (padding-are-bytes nr floor n) (round_count_refusal nr floor n)) }
{
    keccak_tables::round_calls::keccak_tables_padding_are_bytes(nr, floor, n)
}
