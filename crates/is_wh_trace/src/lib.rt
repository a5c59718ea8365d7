// tables/is_wh.rs: the IS_WH table of the rows that `dedup_is_wh_rows` writes.
#![tactic(auto)]

ghost use Rattle.std.specs.Prelude.{◌≡◌, ◌+◌, ◌*◌, ◌≤◌, length};
ghost use Rattle.std.proofs.lemmas.List.Edits.{sets};
ghost use Rattle.lists.specs.Tab.{table_of};
ghost use Rattle.answer.specs.Refusal.{answer_of, number_of};
ghost use Rattle.is_wh.specs.Row.{pair_row};
ghost use Rattle.keccak.specs.Height.{height, MIN-ROWS};
ghost use Rattle.is_wh_trace.specs.Trace.{trace_row, table_row, height_refusal, is_wh_trace_refusal, is_wh_trace_after};

use answer::Refusal;
use bits::put_zeros;
use is_wh::NUM_COLUMNS;
use is_wh_rows::checks::{MAX_KEYS, ROW_SIZE, check_rows};
use keccak::MIN_ROWS;
use operations::table_height;

// The height of the table of n rows.
#[tactic(auto, unfolding(crate::specs::Trace::height_refusal, answer::specs::Refusal::refuse_if, answer::specs::Refusal::number_of))]
pub fn is_wh_height(n: usize) -> Result<u64, Refusal>
    ensures { result ≡ number_of (height MIN-ROWS n) (height_refusal n) }
{
    if n > MAX_KEYS {
        return Err(Refusal::PastEnd(MAX_KEYS as u64 + 1));
    }
    let h = table_height(MIN_ROWS, n);
    Ok(h as u64)
}

// A row of four columns.
fn put_row(table: &mut [u64], at: usize, word: u64, half: u64, mu: u64)
    requires { at + 4 ≤ length table.old }
    ensures { table.new ≡ sets table.old at (pair_row word half mu) }
{
    table[at] = half;
    table[at + 1] = word % 65536;
    table[at + 2] = word / 65536;
    table[at + 3] = mu;
}

// n rows.
fn put_rows(rows: &[u64], n: usize, table: &mut [u64])
    requires { (3 * n ≤ length rows.now) × (n * 4 ≤ length table.old) }
    ensures { table.new ≡ sets table.old 0 (table_of n 4 (trace_row rows.now)) }
{
    for i in 0..n {
        put_row(table, i * 4, rows[3 * i], rows[3 * i + 1], rows[3 * i + 2]);
    }
}

// n rows, then padding rows up to h.
fn put_table(rows: &[u64], n: usize, h: usize, table: &mut [u64])
    requires { (3 * n ≤ length rows.now) × (n ≤ h) × (h * 4 ≤ length table.old) }
    ensures { table.new ≡ sets table.old 0 (table_of h 4 (table_row rows.now n)) }
{
    put_rows(rows, n, table);
    put_zeros(table, n * 4, (h - n) * 4);
}

// The IS_WH table of a list of rows.
pub fn generate_is_wh_trace(rows: &[u64], table: &mut [u64]) -> Result<(), Refusal>
    ensures answer { result ≡ answer_of (is_wh_trace_refusal (length table.old) rows.now) }
    ensures words { table.new ≡ is_wh_trace_after rows.now table.old }
{
    let n = rows.len() / ROW_SIZE;
    let h = table_height(MIN_ROWS, n);
    let room = table.len();
    check_rows(rows, room, h * NUM_COLUMNS)?;
    put_table(rows, n, h, table);
    Ok(())
}
