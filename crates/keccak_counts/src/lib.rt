// tables/keccak.rs: the bitwise lookups of core rows, charged to the counters. A row's follow from its operation's address alone,
// so no row is made.
#![tactic(auto)]

ghost use Rattle.std.specs.Prelude.{◌≡◌, ℕ, ◌*◌, ◌≤◌, ◌<◌, length};
ghost use Rattle.field.specs.Elements.{ElementRow};
ghost use Rattle.bitwise.specs.Columns.{NUM-COUNTERS};
ghost use Rattle.bitwise.specs.Charge.{charged, charged_counters};
ghost use Rattle.keccak.specs.Row.{OP-WORDS, LAST-ADDRESS, op_at, core_row};
ghost use Rattle.keccak.specs.Refusals.{address_at};
ghost use Rattle.keccak.specs.Tuples.{core_tuple};
ghost use Rattle.keccak_counts.specs.Places.{hits, pointer_place, pair_place, address_adds};

use bitwise::{AND, ARE_BYTES, IS_HALF, NUM_LOOKUP_TYPES};
use bitwise_counts::charge_word;
use keccak::OP_WORDS;

// The low halfword of each pointer: lane i sits at the address + 8 i.
fn charge_pointers(address: u64, counters: &mut [u64])
    requires { ElementRow NUM-COUNTERS counters.old × (address ≤ LAST-ADDRESS) }
    ensures { counters.new ≡ charged_counters counters.old (hits 25 (pointer_place address)) }
{
    for i in 0..25 {
        let low = (address + 8 * i) % 65536;
        charge_word(counters, low as usize * NUM_LOOKUP_TYPES + IS_HALF, 1);
    }
}

// The address's bytes, two at a time: the row of two bytes is the halfword that they make.
fn charge_pairs(address: u64, counters: &mut [u64])
    requires { ElementRow NUM-COUNTERS counters.old }
    ensures { counters.new ≡ charged_counters counters.old (hits 4 (pair_place address)) }
{
    for i in 0..4u64 {
        let pair = (address >> (16 * i)) % 65536;
        charge_word(counters, pair as usize * NUM_LOOKUP_TYPES + ARE_BYTES, 1);
    }
}

// All lookups of a row: the pointers, the lowest byte AND 7, whatever the result, and the address's bytes.
fn charge_core_row(address: u64, counters: &mut [u64])
    requires { ElementRow NUM-COUNTERS counters.old × (address ≤ LAST-ADDRESS) }
    ensures { counters.new ≡ charged_counters counters.old (address_adds address) }
{
    charge_pointers(address, counters);
    let low = address % 256;
    charge_word(counters, (low as usize + 1792) * NUM_LOOKUP_TYPES + AND, 1);
    charge_pairs(address, counters);
}

// The lookups of the rows of the first n operations, whatever the number of rounds: it stands in no tuple that is looked up here.
pub fn charge_core_rows(ops: &[u64], n: usize, counters: &mut [u64])
    requires { (OP-WORDS * n ≤ length ops.now) × ElementRow NUM-COUNTERS counters.old × ((i : ℕ) → i < n → address_at ops.now i ≤ LAST-ADDRESS) }
    ensures { (nr : ℕ) → counters.new ≡ charged_counters counters.old (charged n 84 (λ r. core_tuple nr 0 (core_row (op_at ops.now r)))) }
{
    for i in 0..n {
        charge_core_row(ops[OP_WORDS * i + 1], counters);
    }
}
