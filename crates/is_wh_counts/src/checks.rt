// The checks of `collect_bitwise_from_is_wh`: the rows, then the counters that they charge.
ghost use Rattle.std.specs.Prelude.{◌≡◌, ◌/◌, ◌^◌, ◌≤◌, ◌<◌, length};
ghost use Rattle.lists.specs.Tab.{word};
ghost use Rattle.lists.specs.First.{first_at, place_of};
ghost use Rattle.answer.specs.Refusal.{answer_of};
ghost use Rattle.bitwise.specs.Columns.{NUM-COUNTERS};
ghost use Rattle.bitwise.specs.Counters.{large_charged};
ghost use Rattle.is_wh_rows.specs.Lists.{GoodList};
ghost use Rattle.is_wh_counts.specs.Counts.{is_wh_charged, collect_refusal};
ghost use Rattle.is_wh_counts.specs.Steps.{lower_some, lower_by_row, lower_by_rows};

use answer::Refusal;
use bitwise::{IS_B20, IS_HALF, NUM_COUNTERS, NUM_LOOKUP_TYPES};
use bitwise_counts::lower_large;
use is_wh_rows::checks::{ROW_SIZE, check_rows};
use keccak::MIN_ROWS;
use operations::table_height;

// The lower of `least` and counter `at`, if n is added to it and it is P or more.
fn lower_some(counters: &[u64], at: usize, n: u64, least: usize) -> usize
    requires { at < length counters.now }
    ensures { result ≡ lower_some counters.now at n least }
{
    if n == 0 {
        return least;
    }
    lower_large(counters, at, at, least)
}

// The same for the four counters of a row.
fn lower_by_row(counters: &[u64], word: u64, half: u64, mu: u64, least: usize) -> usize
    requires { (NUM-COUNTERS ≤ length counters.now) × (word < 2 ^ 32) × (half < 2 ^ 16) × (mu < 2 ^ 20) }
    ensures { result ≡ lower_by_row counters.now word half mu least }
{
    let a = lower_some(counters, mu as usize * NUM_LOOKUP_TYPES + IS_B20, 1, least);
    let b = lower_some(counters, half as usize * NUM_LOOKUP_TYPES + IS_HALF, mu, a);
    let c = lower_some(
        counters,
        (word % 65536) as usize * NUM_LOOKUP_TYPES + IS_HALF,
        mu,
        b,
    );
    lower_some(
        counters,
        (word / 65536) as usize * NUM_LOOKUP_TYPES + IS_HALF,
        mu,
        c,
    )
}

// The same for the rows of a list.
fn lower_by_rows(rows: &[u64], n: usize, counters: &[u64]) -> usize
    requires { GoodList 3 rows.now × (n ≡ length rows.now / 3) × (NUM-COUNTERS ≤ length counters.now) }
    ensures { result ≡ lower_by_rows rows.now counters.now n }
{
    let mut least: usize = NUM_COUNTERS;
    for i in 0..n {
        least = lower_by_row(
            counters,
            rows[3 * i],
            rows[3 * i + 1],
            rows[3 * i + 2],
            least,
        );
    }
    least
}

// The first of the counters that the table of a list charges, padding rows included, which is P or more.
fn first_charged(rows: &[u64], counters: &[u64]) -> Option<usize>
    requires { GoodList 3 rows.now × (NUM-COUNTERS ≤ length counters.now) }
    ensures { result ≡ place_of (first_at (large_charged (is_wh_charged rows.now) (word counters.now)) NUM-COUNTERS) }
{
    let n = rows.len() / ROW_SIZE;
    if n == 0 {
        return None;
    }
    let h = table_height(MIN_ROWS, n);
    let least = lower_by_rows(rows, n, counters);
    let first = lower_some(counters, IS_B20, (h - n) as u64, least);
    if first < NUM_COUNTERS {
        return Some(first);
    }
    None
}

// All of them.
pub fn check_collect(rows: &[u64], counters: &[u64]) -> Result<(), Refusal>
    ensures { result ≡ answer_of (collect_refusal rows.now counters.now) }
{
    check_rows(rows, counters.len(), NUM_COUNTERS)?;
    if let Some(c) = first_charged(rows, counters) {
        return Err(Refusal::NotElement(c as u64));
    }
    Ok(())
}
