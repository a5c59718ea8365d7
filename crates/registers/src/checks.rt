// The checks of both calls: the register after the number of rounds and the floor, and its ledger after the counters.
ghost use Rattle.std.specs.Prelude.{◌≡◌, ◌+◌, ◌*◌, ◌≤◌, length};
ghost use Rattle.answer.specs.Refusal.{answer_of, too_short};
ghost use Rattle.bitwise.specs.Columns.{NUM-COUNTERS};
ghost use Rattle.registers.specs.Registers.{in_use, own_refusal, through_refusal};

use answer::{Refusal, check_rounds_and_floor};
use bitwise::NUM_LOOKUP_TYPES;
use field::elements::first_not_element;
use segment_counts::checks::check_counts;

// The most registers in use.
pub const MAX_REGISTERS: usize = 16;

// The registers in use, of so many lent ledger words.
fn in_use(words: usize) -> usize
    ensures { result ≡ in_use words }
{
    if words / NUM_LOOKUP_TYPES < MAX_REGISTERS {
        return words / NUM_LOOKUP_TYPES;
    }
    MAX_REGISTERS
}

// The check of a register's own ledger.
fn check_ledger(ledgers: &[u64], register: usize) -> Result<(), Refusal>
    requires { register * 10 + 10 ≤ length ledgers.now }
    ensures { result ≡ answer_of (own_refusal register ledgers.now) }
{
    let at = register * NUM_LOOKUP_TYPES;
    let end = at + NUM_LOOKUP_TYPES;
    if let Some(k) = first_not_element(&ledgers[at..end], NUM_LOOKUP_TYPES) {
        return Err(Refusal::NotElement((at + k) as u64));
    }
    Ok(())
}

// All of them, with a slice of `room` words of which `needed` are needed.
pub fn check_register(
    nr: u64,
    floor: u64,
    register: u64,
    ops: &[u64],
    counters: &[u64],
    ledgers: &[u64],
    room: usize,
    needed: usize,
) -> Result<(), Refusal>
    requires { needed ≤ room → NUM-COUNTERS ≤ length counters.now }
    ensures { result ≡ answer_of (through_refusal (too_short room needed) nr floor register ops.now counters.now ledgers.now) }
{
    check_rounds_and_floor(nr, floor)?;
    if register >= in_use(ledgers.len()) as u64 {
        return Err(Refusal::Register(register));
    }
    check_counts(nr, floor, ops, counters, room, needed)?;
    check_ledger(ledgers, register as usize)
}
