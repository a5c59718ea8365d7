// tables/is_wh.rs: the bitwise lookups of the IS_WH table, charged to the counters.
#![tactic(auto)]

ghost use Rattle.std.specs.Prelude.{◌≡◌, ℕ, ◌/◌, ◌^◌, ◌≤◌, ◌<◌, length};
ghost use Rattle.lists.specs.Tab.{word};
ghost use Rattle.field.specs.Field.{p};
ghost use Rattle.answer.specs.Refusal.{answer_of};
ghost use Rattle.bitwise.specs.Columns.{NUM-COUNTERS};
ghost use Rattle.bitwise.specs.Charge.{charged};
ghost use Rattle.is_wh.specs.Tuples.{is_wh_tuple};
ghost use Rattle.is_wh_rows.specs.Lists.{GoodList};
ghost use Rattle.is_wh_trace.specs.Trace.{trace_row};
ghost use Rattle.is_wh_counts.specs.Counts.{grown_counters, collect_refusal, collect_after};
ghost use Rattle.is_wh_counts.specs.Steps.{charge_some, charged_by_row, RowBelow};

use answer::Refusal;
use bitwise::{IS_B20, IS_HALF, NUM_LOOKUP_TYPES};
use bitwise_counts::charge_word;
use is_wh_rows::checks::ROW_SIZE;
use keccak::MIN_ROWS;
use operations::table_height;

pub mod checks;

// n more on counter `at`, mod P, if n is not 0.
fn charge_some(counters: &mut [u64], at: usize, n: u64)
    requires { (at < length counters.old) × (0 < n → word counters.old at < p) }
    ensures { counters.new ≡ charge_some counters.old at n }
{
    if n == 0 {
        return;
    }
    charge_word(counters, at, n);
}

// The lookups of a row: its three halves mu times, and mu once.
fn charge_row(counters: &mut [u64], word: u64, half: u64, mu: u64)
    requires { (NUM-COUNTERS ≤ length counters.old) × RowBelow counters.old word half mu × (word < 2 ^ 32) × (half < 2 ^ 16) × (mu < 2 ^ 20) }
    ensures { counters.new ≡ charged_by_row counters.old word half mu }
{
    charge_some(counters, mu as usize * NUM_LOOKUP_TYPES + IS_B20, 1);
    charge_some(counters, half as usize * NUM_LOOKUP_TYPES + IS_HALF, mu);
    charge_some(
        counters,
        (word % 65536) as usize * NUM_LOOKUP_TYPES + IS_HALF,
        mu,
    );
    charge_some(
        counters,
        (word / 65536) as usize * NUM_LOOKUP_TYPES + IS_HALF,
        mu,
    );
}

// The lookups of the rows of a list.
fn charge_rows(rows: &[u64], n: usize, counters: &mut [u64])
    requires { (NUM-COUNTERS ≤ length counters.old) × ((c : ℕ) → c < NUM-COUNTERS → 0 < charged n 5 (λ r. is_wh_tuple (trace_row rows.now r)) c → word counters.old c < p) × GoodList 3 rows.now × (n ≡ length rows.now / 3) }
    ensures { counters.new ≡ grown_counters counters.old (charged n 5 (λ r. is_wh_tuple (trace_row rows.now r))) }
{
    for i in 0..n {
        charge_row(counters, rows[3 * i], rows[3 * i + 1], rows[3 * i + 2]);
    }
}

// The lookups of the IS_WH table of a list of rows, charged to the counters of the bitwise table.
pub fn collect_bitwise_from_is_wh(rows: &[u64], counters: &mut [u64]) -> Result<(), Refusal>
    ensures answer { result ≡ answer_of (collect_refusal rows.now counters.old) }
    ensures counters { counters.new ≡ collect_after rows.now counters.old }
{
    checks::check_collect(rows, counters)?;
    let n = rows.len() / ROW_SIZE;
    if n == 0 {
        return Ok(());
    }
    let h = table_height(MIN_ROWS, n);
    charge_rows(rows, n, counters);
    charge_some(counters, IS_B20, (h - n) as u64);
    Ok(())
}
