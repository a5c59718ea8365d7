// What a segment's lookups add to the counters of the bitwise table, and a look at it beforehand: specs/Segment.antt.
#![tactic(auto)]

ghost use Rattle.std.specs.Prelude.{◌≡◌, ℕ, ◌≤◌, ◌<◌};
ghost use Rattle.field.specs.Elements.{ElementRow};
ghost use Rattle.answer.specs.Limits.{MAX-OPS};
ghost use Rattle.answer.specs.Refusal.{answer_of};
ghost use Rattle.bitwise.specs.Columns.{NUM-COUNTERS};
ghost use Rattle.bitwise.specs.Charge.{charged_counters};
ghost use Rattle.keccak.specs.Row.{LAST-ADDRESS};
ghost use Rattle.keccak.specs.Refusals.{op_count, address_at};
ghost use Rattle.keccak_rnd.specs.Row.{round_height};
ghost use Rattle.segment_counts.specs.Segment.{sent_rows, list_charged, charge_refusal, charge_after};

use answer::Refusal;
use bitwise::{ARE_BYTES, NUM_COUNTERS};
use bitwise_counts::charge_word;
use keccak::OP_WORDS;
use keccak_counts::charge_core_rows;
use keccak_rnd::ARE_BYTES_PER_ROW;
use keccak_rnd_counts::charge_op_rounds;
use operations::table_height;

pub mod beforehand;
pub mod checks;

// The rows of the round table of n operations of nr rounds, of `floor` rows or more, that send: none where it is empty and not shipped.
fn sent_rows(nr: usize, floor: usize, shipped: bool, n: usize) -> usize
    requires { (nr ≤ 24) × (n ≤ MAX-OPS) }
    ensures { result ≡ sent_rows shipped n (round_height nr floor n) }
{
    if shipped {
        return table_height(floor, n * nr);
    }
    if n == 0 {
        return 0;
    }
    table_height(floor, n * nr)
}

// The lookups of both tables of a list that passed the checks. A padding row of the core table sends nothing, one of the round table
// 220 pairs of zero bytes.
pub fn charge_segment(nr: usize, floor: usize, shipped: bool, ops: &[u64], counters: &mut [u64])
    requires { (nr ≤ 24) × (floor ≤ 65536) × (op_count ops.now ≤ MAX-OPS) × ElementRow NUM-COUNTERS counters.old × ((i : ℕ) → i < op_count ops.now → address_at ops.now i ≤ LAST-ADDRESS) }
    ensures { counters.new ≡ charged_counters counters.old (list_charged nr floor shipped ops.now) }
{
    let n = ops.len() / OP_WORDS;
    charge_core_rows(ops, n, counters);
    charge_op_rounds(nr, ops, n, counters);
    let padding = sent_rows(nr, floor, shipped, n) - n * nr;
    charge_word(counters, ARE_BYTES, (ARE_BYTES_PER_ROW * padding) as u64);
}

// Charge the lookups of a segment of nr rounds, with tables of `floor` rows or more, to the counters.
pub fn charge(
    nr: u64,
    floor: u64,
    shipped: bool,
    ops: &[u64],
    counters: &mut [u64],
) -> Result<(), Refusal>
    ensures answer { result ≡ answer_of (charge_refusal nr floor ops.now counters.old) }
    ensures words { counters.new ≡ charge_after nr floor shipped ops.now counters.old }
{
    checks::check_counts(nr, floor, ops, counters, counters.len(), NUM_COUNTERS)?;
    charge_segment(nr as usize, floor as usize, shipped, ops, counters);
    Ok(())
}
