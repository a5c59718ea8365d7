// The checks of a flat list of operations.
ghost use Rattle.std.specs.Prelude.{◌≡◌, ◌+◌, ◌*◌, ◌≤◌, ◌<◌, ltb, length};
ghost use Rattle.lists.specs.Tab.{word};
ghost use Rattle.lists.specs.First.{first_at, place_of};
ghost use Rattle.answer.specs.Refusal.{accepted, answer_of, too_short};
ghost use Rattle.keccak.specs.Row.{OP-WORDS};
ghost use Rattle.keccak.specs.Refusals.{bad_address, bad_operation, bad_segment, not_whole, unaligned_at};

use answer::Refusal;
use keccak::{LAST_ADDRESS, LAST_SEGMENT, OP_WORDS, SEGMENT_WORD};

// The first of n operations whose word at a place is above a limit.
fn first_above(ops: &[u64], n: usize, place: usize, limit: u64) -> Option<usize>
    requires { (OP-WORDS * n ≤ length ops.now) × (place < OP-WORDS) }
    ensures { result ≡ place_of (first_at (λ i. ltb limit (word ops.now (OP-WORDS * i + place))) n) }
{
    for i in 0..n {
        if ops[OP_WORDS * i + place] > limit {
            return Some(i);
        }
    }
    None
}

// The first of n operations whose address is no multiple of 8.
fn first_unaligned(ops: &[u64], n: usize) -> Option<usize>
    requires { OP-WORDS * n ≤ length ops.now }
    ensures { result ≡ place_of (first_at (unaligned_at ops.now) n) }
{
    for i in 0..n {
        if ops[OP_WORDS * i + 1] % 8 != 0 {
            return Some(i);
        }
    }
    None
}

// The checks of the addresses: no other is looked at before all of them are known not to be too high.
#[tactic(auto, using(crate::proofs::Found::found_below))]
pub fn check_addresses(ops: &[u64]) -> Result<(), Refusal>
    ensures { result ≡ answer_of (bad_address ops.now accepted) }
{
    let n = ops.len() / OP_WORDS;
    if let Some(i) = first_above(ops, n, 1, LAST_ADDRESS) {
        return Err(Refusal::HighAddress(ops[OP_WORDS * i + 1]));
    }
    if let Some(i) = first_unaligned(ops, n) {
        return Err(Refusal::Unaligned(ops[OP_WORDS * i + 1]));
    }
    Ok(())
}

// The check of the segment numbers.
#[tactic(auto, using(crate::proofs::Found::found_below))]
pub fn check_segments(ops: &[u64]) -> Result<(), Refusal>
    ensures { result ≡ answer_of (bad_segment ops.now accepted) }
{
    let n = ops.len() / OP_WORDS;
    if let Some(i) = first_above(ops, n, SEGMENT_WORD, LAST_SEGMENT) {
        return Err(Refusal::Segment(ops[OP_WORDS * i + SEGMENT_WORD]));
    }
    Ok(())
}

// The checks of a call that takes a list of operations and a slice to write to, after those of its numbers.
pub fn check_operations(ops: &[u64], room: usize, needed: usize) -> Result<(), Refusal>
    ensures { result ≡ answer_of (not_whole ops.now (too_short room needed (bad_operation ops.now accepted))) }
{
    if ops.len() % OP_WORDS != 0 {
        return Err(Refusal::NotWhole(2));
    }
    if room < needed {
        return Err(Refusal::TooShort(needed as u64));
    }
    check_addresses(ops)?;
    check_segments(ops)
}
