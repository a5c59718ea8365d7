// Registers that charge one table of counters, each with a ledger of its ten sums: specs/Registers.antt.
#![tactic(auto)]

ghost use Rattle.std.specs.Prelude.{◌≡◌, ℕ, ◌+◌, ◌≤◌, ◌<◌, length};
ghost use Rattle.std.proofs.lemmas.List.Edits.{sets};
ghost use Rattle.lists.specs.Tab.{tab, word};
ghost use Rattle.field.specs.Field.{p, fadd};
ghost use Rattle.answer.specs.Refusal.{answer_of};
ghost use Rattle.registers.specs.Registers.{register_refusal, register_counters_after, register_ledgers_after};

use answer::Refusal;
use bitwise::{NUM_COUNTERS, NUM_LOOKUP_TYPES};
use bitwise_counts::charge_word;
use keccak::OP_WORDS;
use segment_counts::beforehand::kind_sums;
use segment_counts::charge_segment;

pub mod beforehand;
pub mod checks;

// Ten sums, added mod P to the ledger that starts at `at`.
fn charge_ledger(words: &mut [u64], at: usize, sums: [u64; 10])
    requires { (at + 10 ≤ length words.old) × ((k : ℕ) → k < 10 → word words.old (at + k) < p) }
    ensures { words.new ≡ sets words.old at (tab 10 (λ k. fadd (word words.old (at + k)) (word sums k))) }
{
    for k in 0..NUM_LOOKUP_TYPES {
        charge_word(words, at + k, sums[k]);
    }
}

// Charge the lookups of a segment to the counters, and its sums to the ledger of a register.
pub fn charge(
    nr: u64,
    floor: u64,
    shipped: bool,
    register: u64,
    ops: &[u64],
    counters: &mut [u64],
    ledgers: &mut [u64],
) -> Result<(), Refusal>
    ensures answer { result ≡ answer_of (register_refusal nr floor register ops.now counters.old ledgers.old) }
    ensures counted { counters.new ≡ register_counters_after nr floor shipped register ops.now counters.old ledgers.old }
    ensures added { ledgers.new ≡ register_ledgers_after nr floor shipped register ops.now counters.old ledgers.old }
{
    checks::check_register(
        nr,
        floor,
        register,
        ops,
        counters,
        ledgers,
        counters.len(),
        NUM_COUNTERS,
    )?;
    charge_segment(nr as usize, floor as usize, shipped, ops, counters);
    let sums = kind_sums(nr as usize, floor as usize, shipped, ops.len() / OP_WORDS);
    charge_ledger(ledgers, register as usize * NUM_LOOKUP_TYPES, sums);
    Ok(())
}
