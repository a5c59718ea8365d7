// The verdict on a core table and a round table in lent memory: places of tuples are sorted by merging, and equal ones stand
// together. That its time grows as n log n with the rows, in whatever order they stand, is measured, not proved.
#![tactic(auto)]

ghost use Rattle.std.specs.Prelude.{◌≡◌, ◌≤◌, length};
ghost use Rattle.lists.specs.First.{place_of};
ghost use Rattle.verdict.specs.Kind.{Elements};
ghost use Rattle.verdict.specs.Verdict.{first_repeat, from_core_value, from_round_value, from_core_balance};
ghost use Rattle.verdict.specs.CoreAndRound.{core_layout, core_kind, round_kind};
ghost use Rattle.sort_places.specs.Places.{place_count};
ghost use Rattle.judge_within.specs.Places.{unbalanced_at};
ghost use Rattle.judge_within.specs.Within.{within_for, within_after};

use bits::put_zeros;
use checks::check_within;
use judge_rows::{Check, first_failure};
use judge_scan::{Spot, active_rows};
use places::{arrange, core_places, place_count};
use verdict::{Table, Verdict};
use walks::{first_repeated, first_unbalanced};

pub mod checks;
pub mod places;
pub mod walks;

// The verdict that names an unbalanced place.
fn unbalanced_at(core: &[u64], p: usize) -> Verdict
    ensures { result ≡ unbalanced_at core.now p }
{
    let n = core_places(core);
    if p < n {
        return Verdict::Unbalanced {
            table: Table::Core,
            row: p / 2,
            index: 2 + p % 2,
        };
    }
    Verdict::Unbalanced {
        table: Table::Round,
        row: (p - n) / 2,
        index: (p - n) % 2,
    }
}

// From the unbalanced tuples on: the first of them, or the tables hold.
fn from_core_balance<'a>(
    nr: usize,
    core: &'a [u64],
    round: &'a [u64],
    scratch: &mut [u64],
    spare: &mut [u64],
) -> Verdict
    requires { (place_count core.now round.now ≤ length scratch.old) × (place_count core.now round.now ≤ length spare.old) }
    ensures { result ≡ from_core_balance (core_kind nr) round_kind core.now round.now }
{
    let m = arrange(nr, core, round, true, scratch, spare);
    if let Some(p) = first_unbalanced(nr, core, round, &scratch[..m]) {
        return unbalanced_at(core, p);
    }
    Verdict::Holds {
        active: active_rows(core, Table::Core),
    }
}

// From the values of round rows on.
fn from_round_value<'a>(
    nr: usize,
    core: &'a [u64],
    round: &'a [u64],
    scratch: &mut [u64],
    spare: &mut [u64],
) -> Verdict
    requires { Elements round.now × (place_count core.now round.now ≤ length scratch.old) × (place_count core.now round.now ≤ length spare.old) }
    ensures { result ≡ from_round_value (core_kind nr) round_kind core.now round.now }
{
    if let Some(Spot { row, index }) = first_failure(round, Table::Round, Check::Values) {
        return Verdict::Value {
            table: Table::Round,
            row,
            index,
        };
    }
    if let Some(Spot { row, index }) = first_failure(round, Table::Round, Check::Lookups) {
        return Verdict::Lookup {
            table: Table::Round,
            row,
            index,
        };
    }
    from_core_balance(nr, core, round, scratch, spare)
}

// The first active core row with the timestamp of an earlier one.
fn first_repeat<'a>(
    nr: usize,
    core: &'a [u64],
    round: &'a [u64],
    scratch: &mut [u64],
    spare: &mut [u64],
) -> Option<usize>
    requires { (place_count core.now round.now ≤ length scratch.old) × (place_count core.now round.now ≤ length spare.old) }
    ensures { result ≡ place_of (first_repeat core_layout core.now) }
{
    let m = arrange(nr, core, round, false, scratch, spare);
    first_repeated(core, &scratch[..m])
}

// From the values of core rows on: the verdict on tables that pass the checks. What the two slices held is lost.
pub fn from_core_value<'a>(
    nr: usize,
    core: &'a [u64],
    round: &'a [u64],
    scratch: &mut [u64],
    spare: &mut [u64],
) -> Verdict
    requires { Elements core.now × Elements round.now × (place_count core.now round.now ≤ length scratch.old) × (place_count core.now round.now ≤ length spare.old) }
    ensures { result ≡ from_core_value (core_kind nr) round_kind core.now round.now }
{
    if let Some(Spot { row, index }) = first_failure(core, Table::Core, Check::Values) {
        return Verdict::Value {
            table: Table::Core,
            row,
            index,
        };
    }
    if let Some(Spot { row, index }) = first_failure(core, Table::Core, Check::Lookups) {
        return Verdict::Lookup {
            table: Table::Core,
            row,
            index,
        };
    }
    if let Some(row) = first_repeat(nr, core, round, scratch, spare) {
        return Verdict::Repeated { row };
    }
    from_round_value(nr, core, round, scratch, spare)
}

// The verdict on a core table and a round table for nr rounds. The words of both slices that were used are zeros
// afterwards.
pub fn verdict_within<'a>(
    nr: u64,
    core: &'a [u64],
    round: &'a [u64],
    scratch: &mut [u64],
    spare: &mut [u64],
) -> Verdict
    ensures verdict { result ≡ within_for nr core.now round.now (length scratch.old) (length spare.old) }
    ensures scratch { scratch.new ≡ within_after nr core.now round.now (length scratch.old) (length spare.old) scratch.old }
    ensures spare { spare.new ≡ within_after nr core.now round.now (length scratch.old) (length spare.old) spare.old }
{
    if let Err(refusal) = check_within(nr, core, round, scratch.len(), spare.len()) {
        return Verdict::Refused(refusal);
    }
    let n = place_count(core, round);
    let v = from_core_value(nr as usize, core, round, &mut scratch[..n], &mut spare[..n]);
    put_zeros(scratch, 0, n);
    put_zeros(spare, 0, n);
    v
}
