// The IS_WH table: its rows from a list of keys, its height, the table, what it looks up.
ghost use Rattle.std.specs.Prelude.{◌≡◌, length};
ghost use Rattle.answer.specs.Refusal.{answer_of, number_of};
ghost use Rattle.keccak.specs.Height.{height, MIN-ROWS};
ghost use Rattle.is_wh_rows.specs.Calls.{dedup_answer, loads_after, rows_after};
ghost use Rattle.is_wh_trace.specs.Trace.{height_refusal, is_wh_trace_refusal, is_wh_trace_after};
ghost use Rattle.is_wh_counts.specs.Counts.{collect_refusal, collect_after};
ghost use Rattle.flat.specs.Flat.{flat_answer, flat_number};

use flat::{FlatAnswer, FlatNumber};

#[unsafe(no_mangle)]
pub extern "C" fn keccak_tables_dedup_is_wh_rows(
    keys: &[u64],
    codes: &mut [u64],
    spare: &mut [u64],
    rows: &mut [u64],
) -> FlatNumber
    ensures answer { result ≡ flat_number (dedup_answer (length codes.old) (length spare.old) (length rows.old) keys.now) }
    ensures codes { codes.new ≡ loads_after (length codes.old) (length spare.old) (length rows.old) keys.now codes.old }
    ensures spare { spare.new ≡ loads_after (length codes.old) (length spare.old) (length rows.old) keys.now spare.old }
    ensures rows { rows.new ≡ rows_after (length codes.old) (length spare.old) keys.now rows.old }
{
    keccak_tables::key_rows::keccak_tables_dedup_is_wh_rows(keys, codes, spare, rows)
}

#[unsafe(no_mangle)]
pub extern "C" fn keccak_tables_is_wh_height(n: usize) -> FlatNumber
    ensures { result ≡ flat_number (number_of (height MIN-ROWS n) (height_refusal n)) }
{
    keccak_tables::key_rows::keccak_tables_is_wh_height(n)
}

#[unsafe(no_mangle)]
pub extern "C" fn keccak_tables_generate_is_wh_trace(rows: &[u64], table: &mut [u64]) -> FlatAnswer
    ensures answer { result ≡ flat_answer (answer_of (is_wh_trace_refusal (length table.old) rows.now)) }
    ensures words { table.new ≡ is_wh_trace_after rows.now table.old }
{
    keccak_tables::key_rows::keccak_tables_generate_is_wh_trace(rows, table)
}

#[unsafe(no_mangle)]
pub extern "C" fn keccak_tables_collect_bitwise_from_is_wh(
    rows: &[u64],
    counters: &mut [u64],
) -> FlatAnswer
    ensures answer { result ≡ flat_answer (answer_of (collect_refusal rows.now counters.old)) }
    ensures words { counters.new ≡ collect_after rows.now counters.old }
{
    keccak_tables::key_rows::keccak_tables_collect_bitwise_from_is_wh(rows, counters)
}
