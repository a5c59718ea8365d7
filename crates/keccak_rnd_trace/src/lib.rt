// tables/keccak_rnd.rs: the round table of a list of operations, its height and its padding's lookups.
#![tactic(auto)]

ghost use Rattle.std.specs.Prelude.{◌≡◌, ◌+◌, ◌-◌, ◌*◌, ◌/◌, ◌%◌, ◌≤◌, length};
ghost use Rattle.std.proofs.lemmas.List.Edits.{sets};
ghost use Rattle.lists.specs.Tab.{table_of};
ghost use Rattle.answer.specs.Refusal.{answer_of, number_of};
ghost use Rattle.keccak.specs.Row.{OP-WORDS, op_at};
ghost use Rattle.keccak_rnd.specs.Columns.{NUM-COLUMNS};
ghost use Rattle.keccak_rnd.specs.Row.{op_row, round_row_at, round_height, padding-are-bytes};
ghost use Rattle.keccak_rnd.specs.Refusals.{round_trace_refusal, round_rows_refusal, round_count_refusal};
ghost use Rattle.keccak_rnd.specs.Calls.{round_trace_after, round_rows_after};
ghost use Rattle.keccak_rnd.specs.Parts.{row_after};

use answer::{MAX_OPS, Refusal, check_rounds, check_rounds_and_floor};
use bits::put_zeros;
use keccak::OP_WORDS;
use keccak_rnd::{ARE_BYTES_PER_ROW, NUM_COLUMNS, ROUNDS};
use keccak_rnd_row::put_round_row;
use operations::{check_operations, lanes_at, table_height};
use permutation::State;

// The nr rows of an operation, from `at`, of the rounds up to the last: each starts from the state that the rounds
// before it left.
fn put_rounds(nr: usize, table: &mut [u64], at: usize, timestamp: u64, start: State)
    requires { (nr ≤ 24) × (at + nr * NUM-COLUMNS ≤ length table.old) }
    ensures { table.new ≡ sets table.old at (table_of nr NUM-COLUMNS (row_after (24 - nr) timestamp start.lanes)) }
{
    let first = ROUNDS - nr;
    let mut state = start;
    for r in 0..nr {
        let lanes = state.lanes;
        put_round_row(table, at + r * NUM_COLUMNS, timestamp, first + r, lanes);
        let next = state.round(first + r);
        state = next;
    }
}

// The rows of n operations, nr to each; of an operation only its timestamp and its input are read.
fn put_op_rounds(nr: usize, ops: &[u64], n: usize, table: &mut [u64])
    requires { (1 ≤ nr) × (nr ≤ 24) × (OP-WORDS * n ≤ length ops.now) × (n * nr * NUM-COLUMNS ≤ length table.old) }
    ensures { table.new ≡ sets table.old 0 (table_of (n * nr) NUM-COLUMNS (λ q. op_row nr (op_at ops.now (q / nr)) (q % nr))) }
{
    let words = nr * NUM_COLUMNS;
    for i in 0..n {
        let at = OP_WORDS * i;
        let lanes = lanes_at(ops, at + 2);
        put_rounds(nr, table, i * words, ops[at], State { lanes });
    }
}

// The rows of n operations, then zeros up to h rows.
fn put_round_rows(nr: usize, ops: &[u64], n: usize, h: usize, table: &mut [u64])
    requires { (1 ≤ nr) × (nr ≤ 24) × (OP-WORDS * n ≤ length ops.now) × (n * nr ≤ h) × (h * NUM-COLUMNS ≤ length table.old) }
    ensures { table.new ≡ sets table.old 0 (table_of h NUM-COLUMNS (round_row_at nr n (op_at ops.now))) }
{
    put_op_rounds(nr, ops, n, table);
    let rows = n * nr;
    put_zeros(table, rows * NUM_COLUMNS, (h - rows) * NUM_COLUMNS);
}

// The round table of a list of operations, of nr rounds each, of `floor` rows or more.
pub fn generate_keccak_rnd_trace(
    nr: u64,
    floor: u64,
    ops: &[u64],
    table: &mut [u64],
) -> Result<(), Refusal>
    ensures answer { result ≡ answer_of (round_trace_refusal nr floor (length table.old) ops.now) }
    ensures words { table.new ≡ round_trace_after nr floor ops.now table.old }
{
    check_rounds_and_floor(nr, floor)?;
    let n = ops.len() / OP_WORDS;
    if n as u64 > MAX_OPS {
        return Err(Refusal::PastEnd(MAX_OPS + 1));
    }
    let rounds = nr as usize;
    let h = table_height(floor as usize, n * rounds);
    let room = table.len();
    check_operations(ops, room, h * NUM_COLUMNS)?;
    put_round_rows(rounds, ops, n, h, table);
    Ok(())
}

// The rows of a list of operations, with no padding: parts of a list fill parts of one table.
pub fn keccak_rnd_rows(nr: u64, ops: &[u64], table: &mut [u64]) -> Result<(), Refusal>
    ensures answer { result ≡ answer_of (round_rows_refusal nr (length table.old) ops.now) }
    ensures words { table.new ≡ round_rows_after nr ops.now table.old }
{
    check_rounds(nr)?;
    let n = ops.len() / OP_WORDS;
    if n as u64 > MAX_OPS {
        return Err(Refusal::PastEnd(MAX_OPS + 1));
    }
    let rounds = nr as usize;
    let room = table.len();
    check_operations(ops, room, n * rounds * NUM_COLUMNS)?;
    put_op_rounds(rounds, ops, n, table);
    Ok(())
}

// The height of the round table of n operations, `floor` or more.
pub fn keccak_rnd_height(nr: u64, floor: u64, n: usize) -> Result<u64, Refusal>
    ensures { result ≡ number_of (round_height nr floor n) (round_count_refusal nr floor n) }
{
    check_rounds_and_floor(nr, floor)?;
    if n as u64 > MAX_OPS {
        return Err(Refusal::PastEnd(MAX_OPS + 1));
    }
    let h = table_height(floor as usize, n * nr as usize);
    Ok(h as u64)
}

// The AreBytes lookups of the padding rows of n operations' round table; none where there is no table, whatever the floor.
pub fn padding_are_bytes(nr: u64, floor: u64, n: usize) -> Result<u64, Refusal>
    ensures { result ≡ number_of (padding-are-bytes nr floor n) (round_count_refusal nr floor n) }
{
    check_rounds_and_floor(nr, floor)?;
    if n as u64 > MAX_OPS {
        return Err(Refusal::PastEnd(MAX_OPS + 1));
    }
    if n == 0 {
        return Ok(0);
    }
    let used = n * nr as usize;
    let rows = table_height(floor as usize, used) - used;
    let lookups = rows * ARE_BYTES_PER_ROW;
    Ok(lookups as u64)
}
