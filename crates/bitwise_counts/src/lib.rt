// tables/bitwise.rs: the counters of the lookups.
#![tactic(auto)]

ghost use Rattle.std.specs.Prelude.{◌≡◌, ◌<◌, length};
ghost use Rattle.lists.specs.Tab.{word};
ghost use Rattle.field.specs.Field.{p};
ghost use Rattle.answer.specs.Refusal.{answer_of};
ghost use Rattle.bitwise.specs.Counters.{charge, lower_large, bump_refusal, bump_n_after, bump_after};

use answer::Refusal;
use bitwise::{NUM_COUNTERS, NUM_LOOKUP_TYPES};
use bitwise_rows::row_of;
use field::Fe;

pub mod histogram;

// n more on one word, mod P.
pub fn charge_word(words: &mut [u64], at: usize, n: u64)
    requires { (at < length words.old) × (word words.old at < p) }
    ensures { words.new ≡ charge words.old at n }
{
    let sum = Fe { value: words[at] }.add(Fe { value: n % Fe::P });
    words[at] = sum.value;
}

// The lower of `least` and counter c, if the word that stands for it is P or more.
#[tactic(auto, unfolding(bitwise::specs::Counters::lower_large))]
pub fn lower_large(words: &[u64], at: usize, c: usize, least: usize) -> usize
    requires { at < length words.now }
    ensures { result ≡ lower_large (word words.now at) c least }
{
    if words[at] < Fe::P {
        return least;
    }
    if c >= least {
        return least;
    }
    c
}

// n more, mod P, on the counter of a kind in the row of x, y and z.
#[tactic(auto, unfolding(bitwise::specs::Counters::bump_refusal, answer::specs::Refusal::refuse_if, answer::specs::Refusal::answer_of, answer::specs::Refusal::afterwards))]
pub fn bump_n(counters: &mut [u64], kind: usize, x: u8, y: u8, z: u8, n: u64) -> Result<(), Refusal>
    ensures answer { result ≡ answer_of (bump_refusal counters.old kind x y z) }
    ensures words { counters.new ≡ bump_n_after counters.old kind x y z n }
{
    if kind >= NUM_LOOKUP_TYPES {
        return Err(Refusal::PastEnd(NUM_LOOKUP_TYPES as u64));
    }
    if z >= 16 {
        return Err(Refusal::PastEnd(16));
    }
    if counters.len() < NUM_COUNTERS {
        return Err(Refusal::TooShort(NUM_COUNTERS as u64));
    }
    let at = row_of(x, y, z) * NUM_LOOKUP_TYPES + kind;
    if counters[at] >= Fe::P {
        return Err(Refusal::NotElement(at as u64));
    }
    charge_word(counters, at, n);
    Ok(())
}

// One more.
pub fn bump(counters: &mut [u64], kind: usize, x: u8, y: u8, z: u8) -> Result<(), Refusal>
    ensures answer { result ≡ answer_of (bump_refusal counters.old kind x y z) }
    ensures words { counters.new ≡ bump_after counters.old kind x y z }
{
    bump_n(counters, kind, x, y, z, 1)
}
