// Lookups counted into the counters, and into the table.
ghost use Rattle.std.specs.Prelude.{◌≡◌, ◌*◌, ◌≤◌, length};
ghost use Rattle.std.proofs.Math.Option.{none};
ghost use Rattle.lists.specs.Tab.{word};
ghost use Rattle.lists.specs.First.{first, first_at};
ghost use Rattle.answer.specs.Refusal.{answer_of};
ghost use Rattle.bitwise.specs.Counters.{large_charged};
ghost use Rattle.bitwise.specs.Lookups.{past_at, not_byte_at, charge_each, lookup_counter, named_in, mu_at};
ghost use Rattle.bitwise.specs.Lookups.{add_ops_refusal, add_ops_after, update_refusal, update_after};

use super::LOOKUP_WORDS;
use super::checks::{check_lookups, counter_of, first_counter, first_mu, first_not_byte, mu_at};
use answer::Refusal;
use bitwise::{NUM_COUNTERS, TABLE_WORDS};
use bitwise_counts::charge_word;

// One more on the counter of each of n lookups.
fn add_lookups(counters: &mut [u64], ops: &[u64], n: usize)
    requires { (4 * n ≤ length ops.now) × (first (past_at ops.now) n ≡ none) × (first (not_byte_at ops.now) n ≡ none) × (10485760 ≤ length counters.old) × (first_at (large_charged (named_in ops.now n) (word counters.old)) 10485760 ≡ none) }
    ensures { counters.new ≡ charge_each (lookup_counter ops.now) n counters.old }
{
    for i in 0..n {
        let at = counter_of(ops, i);
        charge_word(counters, at, 1);
    }
}

// Fold a list of lookups into the counters.
#[tactic(auto, unfolding(bitwise::specs::Lookups::add_ops_refusal, bitwise::specs::Lookups::added_ops, answer::specs::Refusal::refuse_if, answer::specs::Refusal::refuse_at, answer::specs::Refusal::answer_of, answer::specs::Refusal::afterwards))]
pub fn add_ops(counters: &mut [u64], ops: &[u64]) -> Result<(), Refusal>
    ensures answer { result ≡ answer_of (add_ops_refusal counters.old ops.now) }
    ensures words { counters.new ≡ add_ops_after counters.old ops.now }
{
    let room = counters.len();
    check_lookups(ops, room, NUM_COUNTERS)?;
    let n = ops.len() / LOOKUP_WORDS;
    if let Some(k) = first_not_byte(ops, n) {
        return Err(Refusal::NotElement(k as u64));
    }
    if let Some(c) = first_counter(counters, ops, n) {
        return Err(Refusal::NotElement(c as u64));
    }
    add_lookups(counters, ops, n);
    Ok(())
}

// One more on the multiplicity of each of n lookups.
fn update_lookups(table: &mut [u64], ops: &[u64], n: usize)
    requires { (4 * n ≤ length ops.now) × (first (past_at ops.now) n ≡ none) × (first (not_byte_at ops.now) n ≡ none) × (22020096 ≤ length table.old) × (first_at (large_charged (named_in ops.now n) (λ c. word table.old (mu_at c))) 10485760 ≡ none) }
    ensures { table.new ≡ charge_each (λ i. mu_at (lookup_counter ops.now i)) n table.old }
{
    for i in 0..n {
        let at = mu_at(counter_of(ops, i));
        charge_word(table, at, 1);
    }
}

// One more on the table's multiplicity of each lookup of a list.
#[tactic(auto, unfolding(bitwise::specs::Lookups::update_refusal, bitwise::specs::Lookups::updated_mus, answer::specs::Refusal::refuse_if, answer::specs::Refusal::refuse_at, answer::specs::Refusal::answer_of, answer::specs::Refusal::afterwards))]
pub fn update_multiplicities(table: &mut [u64], ops: &[u64]) -> Result<(), Refusal>
    ensures answer { result ≡ answer_of (update_refusal table.old ops.now) }
    ensures words { table.new ≡ update_after table.old ops.now }
{
    let room = table.len();
    check_lookups(ops, room, TABLE_WORDS)?;
    let n = ops.len() / LOOKUP_WORDS;
    if let Some(k) = first_not_byte(ops, n) {
        return Err(Refusal::NotElement(k as u64));
    }
    if let Some(c) = first_mu(table, ops, n) {
        return Err(Refusal::NotElement(mu_at(c) as u64));
    }
    update_lookups(table, ops, n);
    Ok(())
}
