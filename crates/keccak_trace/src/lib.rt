// tables/keccak.rs: the core table of a list of operations and its height.
#![tactic(auto)]

ghost use Rattle.std.specs.Prelude.{◌≡◌, ◌+◌, ◌*◌, ◌≤◌, length};
ghost use Rattle.std.proofs.Math.Option.{none};
ghost use Rattle.std.proofs.lemmas.List.Edits.{sets};
ghost use Rattle.lists.specs.Tab.{table_of};
ghost use Rattle.lists.specs.First.{first_at};
ghost use Rattle.answer.specs.Refusal.{answer_of, number_of};
ghost use Rattle.keccak.specs.Columns.{NUM-COLUMNS};
ghost use Rattle.keccak.specs.Height.{height};
ghost use Rattle.keccak.specs.Row.{OP-WORDS, core_row, core_pad, core_row_at, op_at};
ghost use Rattle.keccak.specs.Refusals.{high_at, wide_at, core_trace_refusal, core_rows_refusal, core_count_refusal};
ghost use Rattle.keccak.specs.Calls.{core_trace_after, core_rows_after};

use answer::{MAX_OPS, Refusal, check_floor};
use keccak::{NUM_COLUMNS, OP_WORDS};
pub use keccak_row::keccak_row;
use keccak_row::{put_core_row, put_pad_row};
use operations::{check_operations, operation_at, table_height};

// The rows of n operations.
fn put_op_rows(ops: &[u64], n: usize, table: &mut [u64])
    requires { (OP-WORDS * n ≤ length ops.now) × (n * NUM-COLUMNS ≤ length table.old) × (first_at (high_at ops.now) n ≡ none) × (first_at (wide_at ops.now) n ≡ none) }
    ensures { table.new ≡ sets table.old 0 (table_of n NUM-COLUMNS (λ i. core_row (op_at ops.now i))) }
{
    for i in 0..n {
        let op = operation_at(ops, i);
        put_core_row(table, i * NUM_COLUMNS, op);
    }
}

// m padding rows, from `at`.
fn put_pad_rows(table: &mut [u64], at: usize, m: usize)
    requires { at + m * NUM-COLUMNS ≤ length table.old }
    ensures { table.new ≡ sets table.old at (table_of m NUM-COLUMNS (λ i. core_pad)) }
{
    for i in 0..m {
        put_pad_row(table, at + i * NUM_COLUMNS);
    }
}

// The rows of n operations, then padding rows up to h.
fn put_core_rows(ops: &[u64], n: usize, h: usize, table: &mut [u64])
    requires { (OP-WORDS * n ≤ length ops.now) × (n ≤ h) × (h * NUM-COLUMNS ≤ length table.old) × (first_at (high_at ops.now) n ≡ none) × (first_at (wide_at ops.now) n ≡ none) }
    ensures { table.new ≡ sets table.old 0 (table_of h NUM-COLUMNS (core_row_at n (op_at ops.now))) }
{
    put_op_rows(ops, n, table);
    put_pad_rows(table, n * NUM_COLUMNS, h - n);
}

// The core table of a list of operations, of `floor` rows or more.
pub fn generate_keccak_trace(floor: u64, ops: &[u64], table: &mut [u64]) -> Result<(), Refusal>
    ensures answer { result ≡ answer_of (core_trace_refusal floor (length table.old) ops.now) }
    ensures words { table.new ≡ core_trace_after floor ops.now table.old }
{
    check_floor(floor)?;
    let n = ops.len() / OP_WORDS;
    if n as u64 > MAX_OPS {
        return Err(Refusal::PastEnd(MAX_OPS + 1));
    }
    let h = table_height(floor as usize, n);
    let room = table.len();
    check_operations(ops, room, h * NUM_COLUMNS)?;
    put_core_rows(ops, n, h, table);
    Ok(())
}

// The rows of a list of operations, with no padding: parts of a list fill parts of one table.
pub fn keccak_rows(ops: &[u64], table: &mut [u64]) -> Result<(), Refusal>
    ensures answer { result ≡ answer_of (core_rows_refusal (length table.old) ops.now) }
    ensures words { table.new ≡ core_rows_after ops.now table.old }
{
    let n = ops.len() / OP_WORDS;
    if n as u64 > MAX_OPS {
        return Err(Refusal::PastEnd(MAX_OPS + 1));
    }
    let room = table.len();
    check_operations(ops, room, n * NUM_COLUMNS)?;
    put_op_rows(ops, n, table);
    Ok(())
}

// The height of the core table of n operations, `floor` or more.
pub fn keccak_height(floor: u64, n: usize) -> Result<u64, Refusal>
    ensures { result ≡ number_of (height floor n) (core_count_refusal floor n) }
{
    check_floor(floor)?;
    if n as u64 > MAX_OPS {
        Err(Refusal::PastEnd(MAX_OPS + 1))
    } else {
        Ok(table_height(floor as usize, n) as u64)
    }
}
