// The checks that a charge and its look share, of every call that makes one.
ghost use Rattle.std.proofs.Math.Option.{Option};
ghost use Rattle.std.specs.Prelude.{◌≡◌, ◌≤◌, length};
ghost use Rattle.answer.specs.Refusal.{answer_of, too_short};
ghost use Rattle.answer.specs.declared.Refusal.{Refusal as Refused};
ghost use Rattle.bitwise.specs.Columns.{NUM-COUNTERS};
ghost use Rattle.segment_counts.specs.Segment.{look_short};
ghost use Rattle.segment_counts.specs.Kinds.{counts_refusal};

use answer::{MAX_OPS, Refusal, check_rounds_and_floor};
use bitwise::NUM_COUNTERS;
use field::elements::first_not_element;
use keccak::OP_WORDS;
use operations::check_operations;

// The words of a look's answer.
pub const LOOK_WORDS: usize = 20;

// A slice's length, and the length that is needed.
#[derive(Clone, Copy)]
pub struct Room {
    pub room: usize,
    pub needed: usize,
}

// Of the three slices of a look that answers so many words the first that is too short, or the last.
pub fn first_short(counters: usize, copy: usize, out: usize, words: usize) -> Room
    ensures { (later : Option Refused) → too_short result.room result.needed later ≡ look_short words counters copy out later }
{
    if counters < NUM_COUNTERS {
        return Room {
            room: counters,
            needed: NUM_COUNTERS,
        };
    }
    if copy < NUM_COUNTERS {
        return Room {
            room: copy,
            needed: NUM_COUNTERS,
        };
    }
    Room {
        room: out,
        needed: words,
    }
}

// The checks of the number of rounds and the floor, the list and the slices, and then every counter.
pub fn check_counts(
    nr: u64,
    floor: u64,
    ops: &[u64],
    counters: &[u64],
    room: usize,
    needed: usize,
) -> Result<(), Refusal>
    requires { needed ≤ room → NUM-COUNTERS ≤ length counters.now }
    ensures { result ≡ answer_of (counts_refusal nr floor room needed ops.now counters.now) }
{
    check_rounds_and_floor(nr, floor)?;
    if (ops.len() / OP_WORDS) as u64 > MAX_OPS {
        return Err(Refusal::PastEnd(MAX_OPS + 1));
    }
    check_operations(ops, room, needed)?;
    if let Some(c) = first_not_element(counters, NUM_COUNTERS) {
        return Err(Refusal::NotElement(c as u64));
    }
    Ok(())
}
