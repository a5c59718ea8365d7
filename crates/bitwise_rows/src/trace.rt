// tables/bitwise.rs: the whole table, before anything is looked up.
ghost use Rattle.std.specs.Prelude.{◌≡◌, ◌≤◌, length};
ghost use Rattle.std.proofs.lemmas.List.Edits.{sets};
ghost use Rattle.answer.specs.Refusal.{answer_of};
ghost use Rattle.bitwise.specs.Table.{trace_row, bitwise_table, trace_refusal, trace_after};

use super::put_row;
use answer::Refusal;
use bits::put_zeros;
use bitwise::{NUM_COLUMNS, NUM_LOOKUP_TYPES, NUM_PRECOMPUTED_COLS, NUM_ROWS, TABLE_WORDS};

// The 21 words of row i.
fn put_trace_row(row: &mut [u64], i: u64)
    requires { 21 ≤ length row.old }
    ensures { row.new ≡ sets row.old 0 (trace_row i) }
{
    put_row(row, i % 256, i / 256 % 256, i / 65536 % 16);
    put_zeros(row, NUM_PRECOMPUTED_COLS, NUM_LOOKUP_TYPES);
}

fn put_table(table: &mut [u64])
    requires { 22020096 ≤ length table.old }
    ensures { table.new ≡ sets table.old 0 bitwise_table }
{
    for i in 0..NUM_ROWS {
        let at = i * NUM_COLUMNS;
        let end = at + NUM_COLUMNS;
        put_trace_row(&mut table[at..end], i as u64);
    }
}

// The whole table, each multiplicity being 0.
#[tactic(auto, unfolding(bitwise::specs::Table::trace_refusal, answer::specs::Refusal::refuse_if, answer::specs::Refusal::answer_of, answer::specs::Refusal::afterwards))]
pub fn generate_bitwise_trace(table: &mut [u64]) -> Result<(), Refusal>
    ensures answer { result ≡ answer_of (trace_refusal table.old) }
    ensures words { table.new ≡ trace_after table.old }
{
    if table.len() < TABLE_WORDS {
        return Err(Refusal::TooShort(TABLE_WORDS as u64));
    }
    put_table(table);
    Ok(())
}
