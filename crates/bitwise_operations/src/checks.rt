// The checks of a flat list of lookups, and of the counters or multiplicities that it charges.
ghost use Rattle.std.specs.Prelude.{◌≡◌, ◌+◌, ◌*◌, ◌≤◌, ◌<◌, length};
ghost use Rattle.std.proofs.Math.Option.{none};
ghost use Rattle.lists.specs.Tab.{word};
ghost use Rattle.lists.specs.First.{first, first_at, place_of};
ghost use Rattle.answer.specs.Refusal.{accepted, answer_of, too_short};
ghost use Rattle.bitwise.specs.Counters.{large_charged};
ghost use Rattle.bitwise.specs.Lookups.{Lookup, past_at, not_byte_at, lookup_past, lookups_cut, lookup_counter, named_in, mu_at};

use super::LOOKUP_WORDS;
use answer::Refusal;
use bitwise::{NUM_COLUMNS, NUM_COUNTERS, NUM_LOOKUP_TYPES, NUM_PRECOMPUTED_COLS};
use bitwise_counts::lower_large;

// The least number refused, of the first of n lookups whose kind, or else whose z, is past its end.
fn first_past(ops: &[u64], n: usize) -> Option<usize>
    requires { 4 * n ≤ length ops.now }
    ensures { result ≡ place_of (first (past_at ops.now) n) }
{
    for i in 0..n {
        if ops[LOOKUP_WORDS * i] >= 10 {
            return Some(10);
        }
        if ops[LOOKUP_WORDS * i + 3] >= 16 {
            return Some(16);
        }
    }
    None
}

// The place of the first x or y of n lookups that is no byte.
pub fn first_not_byte(ops: &[u64], n: usize) -> Option<usize>
    requires { 4 * n ≤ length ops.now }
    ensures { result ≡ place_of (first (not_byte_at ops.now) n) }
{
    for i in 0..n {
        if ops[LOOKUP_WORDS * i + 1] >= 256 {
            return Some(LOOKUP_WORDS * i + 1);
        }
        if ops[LOOKUP_WORDS * i + 2] >= 256 {
            return Some(LOOKUP_WORDS * i + 2);
        }
    }
    None
}

// The checks by 1, 2 and 3 of a call that counts a list into a slice of `room` words.
#[tactic(auto, unfolding(answer::specs::Refusal::refuse_if, answer::specs::Refusal::refuse_at, answer::specs::Refusal::answer_of))]
pub fn check_lookups(ops: &[u64], room: usize, needed: usize) -> Result<(), Refusal>
    ensures { result ≡ answer_of (lookup_past ops.now (lookups_cut ops.now (too_short room needed accepted))) }
{
    let n = ops.len() / LOOKUP_WORDS;
    if let Some(limit) = first_past(ops, n) {
        return Err(Refusal::PastEnd(limit as u64));
    }
    if ops.len() % LOOKUP_WORDS != 0 {
        return Err(Refusal::NotWhole(2));
    }
    if room < needed {
        return Err(Refusal::TooShort(needed as u64));
    }
    Ok(())
}

// The word of the table that counter i is for.
pub fn mu_at(i: usize) -> usize
    requires { i < 10485760 }
    ensures { result ≡ mu_at i }
{
    i / NUM_LOOKUP_TYPES * NUM_COLUMNS + (NUM_PRECOMPUTED_COLS + i % NUM_LOOKUP_TYPES)
}

// The counter of lookup i.
pub fn counter_of(ops: &[u64], i: usize) -> usize
    requires { (4 * i + 4 ≤ length ops.now) × Lookup ops.now i }
    ensures { result ≡ lookup_counter ops.now i }
{
    let at = LOOKUP_WORDS * i;
    let kind = ops[at];
    let x = ops[at + 1];
    let y = ops[at + 2];
    let z = ops[at + 3];
    ((x + y * 256 + z * 65536) * 10 + kind) as usize
}

// The first of the counters of n lookups that is P or more.
pub fn first_counter(counters: &[u64], ops: &[u64], n: usize) -> Option<usize>
    requires { (4 * n ≤ length ops.now) × (first (past_at ops.now) n ≡ none) × (first (not_byte_at ops.now) n ≡ none) × (10485760 ≤ length counters.now) }
    ensures { result ≡ place_of (first_at (large_charged (named_in ops.now n) (word counters.now)) 10485760) }
{
    let mut least: usize = NUM_COUNTERS;
    for i in 0..n {
        let c = counter_of(ops, i);
        least = lower_large(counters, c, c, least);
    }
    if least < NUM_COUNTERS {
        return Some(least);
    }
    None
}

// The first of them whose word of the table is P or more.
pub fn first_mu(table: &[u64], ops: &[u64], n: usize) -> Option<usize>
    requires { (4 * n ≤ length ops.now) × (first (past_at ops.now) n ≡ none) × (first (not_byte_at ops.now) n ≡ none) × (22020096 ≤ length table.now) }
    ensures { result ≡ place_of (first_at (large_charged (named_in ops.now n) (λ c. word table.now (mu_at c))) 10485760) }
{
    let mut least: usize = NUM_COUNTERS;
    for i in 0..n {
        let c = counter_of(ops, i);
        least = lower_large(table, mu_at(c), c, least);
    }
    if least < NUM_COUNTERS {
        return Some(least);
    }
    None
}
