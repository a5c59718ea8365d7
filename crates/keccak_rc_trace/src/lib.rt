// tables/keccak_rc.rs: the 32 rows of round constants and their multiplicities.
#![tactic(auto)]

ghost use Rattle.std.specs.Prelude.{◌≡◌, [], ◌∷◌, ◌++◌, ◌+◌, ◌≤◌, length};
ghost use Rattle.std.proofs.lemmas.List.Edits.{sets};
ghost use Rattle.answer.specs.Refusal.{answer_of};
ghost use Rattle.keccak_rc.specs.Row.{rc_row, rc_row_refusal, rc_row_after};
ghost use Rattle.keccak_rc.specs.Table.{rc_table, times_looked_up, rc_trace_refusal, updated, update_refusal, rc_trace_after, update_after};

use answer::{MAX_OPS, Refusal, check_rounds};
use bits::put_dword_bl;
use fips202::round_constant;
use keccak_rc::{MU, NUM_COLUMNS, NUM_PRECOMPUTED_COLS, NUM_REAL_ROWS, NUM_ROWS, TABLE_WORDS};

// The nine fixed words of a row, from `at` on.
fn put_row(row: &mut [u64], at: usize, round: usize)
    requires { at + 9 ≤ length row.old }
    ensures { row.new ≡ sets row.old at (rc_row round) }
{
    let constant = round_constant(round);
    row[at] = round as u64;
    put_dword_bl(row, at + 1, constant);
}

// The nine fixed words of row `round`.
#[tactic(auto, unfolding(keccak_rc::specs::Row::rc_row_refusal, answer::specs::Refusal::refuse_if, answer::specs::Refusal::answer_of, answer::specs::Refusal::afterwards))]
pub fn generate_row(round: usize, out: &mut [u64]) -> Result<(), Refusal>
    ensures answer { result ≡ answer_of (rc_row_refusal round out.old) }
    ensures words { out.new ≡ rc_row_after round out.old }
{
    if round >= NUM_ROWS {
        return Err(Refusal::PastEnd(NUM_ROWS as u64));
    }
    if out.len() < NUM_PRECOMPUTED_COLS {
        return Err(Refusal::TooShort(NUM_PRECOMPUTED_COLS as u64));
    }
    put_row(out, 0, round);
    Ok(())
}

// The ten words of a row that nothing has looked up, from `at` on.
fn put_table_row(table: &mut [u64], at: usize, round: usize)
    requires { at + 10 ≤ length table.old }
    ensures { table.new ≡ sets table.old at (rc_row round ++ (0 ∷ [])) }
{
    put_row(table, at, round);
    table[at + MU] = 0;
}

fn put_table(table: &mut [u64])
    requires { 320 ≤ length table.old }
    ensures { table.new ≡ sets table.old 0 rc_table }
{
    for round in 0..NUM_ROWS {
        put_table_row(table, round * NUM_COLUMNS, round);
    }
}

// The whole table, each MU being 0.
#[tactic(auto, unfolding(keccak_rc::specs::Table::rc_trace_refusal, answer::specs::Refusal::refuse_if, answer::specs::Refusal::answer_of, answer::specs::Refusal::afterwards))]
pub fn generate_keccak_rc_trace(table: &mut [u64]) -> Result<(), Refusal>
    ensures answer { result ≡ answer_of (rc_trace_refusal table.old) }
    ensures words { table.new ≡ rc_trace_after table.old }
{
    if table.len() < TABLE_WORDS {
        return Err(Refusal::TooShort(TABLE_WORDS as u64));
    }
    put_table(table);
    Ok(())
}

// How often n operations of nr rounds look up a round: those before round 24 - nr never.
#[tactic(auto, unfolding(keccak_rc::specs::Table::times_looked_up))]
fn times_looked_up(nr: usize, n: u64, round: usize) -> u64
    requires { nr ≤ 24 }
    ensures { result ≡ times_looked_up nr n round }
{
    if round < NUM_REAL_ROWS - nr {
        return 0;
    }
    n
}

fn put_multiplicities(nr: usize, table: &mut [u64], n: u64)
    requires { (nr ≤ 24) × (320 ≤ length table.old) }
    ensures { table.new ≡ updated nr n table.old }
{
    for round in 0..NUM_REAL_ROWS {
        table[round * NUM_COLUMNS + MU] = times_looked_up(nr, n, round);
    }
}

// MU of the rounds 24 - nr to 23 set to the number of operations, that of the rounds before them to 0.
#[tactic(auto, unfolding(keccak_rc::specs::Table::update_refusal, answer::specs::Refusal::refuse_if, answer::specs::Refusal::answer_of, answer::specs::Refusal::afterwards))]
pub fn update_multiplicities(nr: u64, table: &mut [u64], n: u64) -> Result<(), Refusal>
    ensures answer { result ≡ answer_of (update_refusal nr table.old n) }
    ensures words { table.new ≡ update_after nr table.old n }
{
    check_rounds(nr)?;
    if n > MAX_OPS {
        return Err(Refusal::PastEnd(MAX_OPS + 1));
    }
    if table.len() < TABLE_WORDS {
        return Err(Refusal::TooShort(TABLE_WORDS as u64));
    }
    put_multiplicities(nr as usize, table, n);
    Ok(())
}
