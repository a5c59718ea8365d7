// tables/bitwise.rs: two histograms merged, and one written into the table's multiplicities.
ghost use Rattle.std.specs.Prelude.{◌≡◌, ◌≤◌, ◌<◌, length};
ghost use Rattle.std.proofs.Math.Option.{none};
ghost use Rattle.field.specs.Field.{p, fadd};
ghost use Rattle.field.specs.Elements.{first_not_element};
ghost use Rattle.answer.specs.Refusal.{answer_of};
ghost use Rattle.bitwise.specs.Counters.{merged, merge_refusal, merge_after};
ghost use Rattle.bitwise.specs.Table.{filled, fill_refusal, fill_after};

use answer::Refusal;
use bitwise::{
    NUM_COLUMNS, NUM_COUNTERS, NUM_LOOKUP_TYPES, NUM_PRECOMPUTED_COLS, NUM_ROWS, TABLE_WORDS,
};
use field::Fe;
use field::elements::first_not_element;
use lists::put_part;

// The sum mod P.
fn sum(a: u64, b: u64) -> u64
    requires { (a < p) × (b < p) }
    ensures { result ≡ fadd a b }
{
    let s = Fe { value: a }.add(Fe { value: b });
    s.value
}

// Each counter with the other's added, mod P.
fn add_counters(counters: &mut [u64], other: &[u64])
    requires { (10485760 ≤ length counters.old) × (10485760 ≤ length other.now) × (first_not_element counters.old 10485760 ≡ none) × (first_not_element other.now 10485760 ≡ none) }
    ensures { counters.new ≡ merged counters.old other.now }
{
    for k in 0..NUM_COUNTERS {
        counters[k] = sum(counters[k], other[k]);
    }
}

// Merge another histogram into this one.
#[tactic(auto, unfolding(bitwise::specs::Counters::merge_refusal, answer::specs::Refusal::refuse_if, answer::specs::Refusal::refuse_at, answer::specs::Refusal::answer_of, answer::specs::Refusal::afterwards))]
pub fn merge(counters: &mut [u64], other: &[u64]) -> Result<(), Refusal>
    ensures answer { result ≡ answer_of (merge_refusal counters.old other.now) }
    ensures words { counters.new ≡ merge_after counters.old other.now }
{
    if counters.len() < NUM_COUNTERS {
        return Err(Refusal::TooShort(NUM_COUNTERS as u64));
    }
    if other.len() < NUM_COUNTERS {
        return Err(Refusal::TooShort(NUM_COUNTERS as u64));
    }
    if let Some(k) = first_not_element(counters, NUM_COUNTERS) {
        return Err(Refusal::NotElement(k as u64));
    }
    if let Some(k) = first_not_element(other, NUM_COUNTERS) {
        return Err(Refusal::NotElement(k as u64));
    }
    add_counters(counters, other);
    Ok(())
}

// The ten counters of each row into its columns from the twelfth on.
fn put_counters(counters: &[u64], table: &mut [u64])
    requires { (10485760 ≤ length counters.now) × (22020096 ≤ length table.old) }
    ensures { table.new ≡ filled counters.now table.old }
{
    for r in 0..NUM_ROWS {
        put_part(
            table,
            r * NUM_COLUMNS + NUM_PRECOMPUTED_COLS,
            counters,
            r * NUM_LOOKUP_TYPES,
            NUM_LOOKUP_TYPES,
        );
    }
}

// Write the accumulated multiplicities into the table.
#[tactic(auto, unfolding(bitwise::specs::Table::fill_refusal, answer::specs::Refusal::refuse_if, answer::specs::Refusal::refuse_at, answer::specs::Refusal::answer_of, answer::specs::Refusal::afterwards))]
pub fn fill_multiplicities(counters: &[u64], table: &mut [u64]) -> Result<(), Refusal>
    ensures answer { result ≡ answer_of (fill_refusal counters.now table.old) }
    ensures words { table.new ≡ fill_after counters.now table.old }
{
    if counters.len() < NUM_COUNTERS {
        return Err(Refusal::TooShort(NUM_COUNTERS as u64));
    }
    if table.len() < TABLE_WORDS {
        return Err(Refusal::TooShort(TABLE_WORDS as u64));
    }
    if let Some(place) = first_not_element(counters, NUM_COUNTERS) {
        return Err(Refusal::NotElement(place as u64));
    }
    put_counters(counters, table);
    Ok(())
}
