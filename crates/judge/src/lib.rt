// The verdict on a core table and a round table for nr rounds: refusal 8, then the stages of `verdict_at`, one after the
// other.
#![tactic(auto)]

ghost use Rattle.std.specs.Prelude.{◌≡◌, ◌≤◌};
ghost use Rattle.verdict.specs.Kind.{rows};
ghost use Rattle.verdict.specs.CoreAndRound.{core_kind, round_kind, core_layout, round_layout, verdict_at, verdict_for};
ghost use Rattle.verdict.specs.Kind.{Elements};
ghost use Rattle.verdict.specs.Verdict.{from_core_value, from_round_value, from_core_balance, from_round_balance};
ghost use Rattle.judge_links.specs.Even.{Even};

use answer::check_rounds;
use checks::{check_rows, check_words};
use judge_bus::first_unbalanced;
use judge_rows::{Check, first_failure};
use judge_scan::{Spot, active_rows, first_repeat};
use judge_walk::{Walked, walk};
use verdict::{Table, Verdict};

pub mod checks;

// From the unbalanced tuples of round rows on: a tuple of one, or the tables hold.
fn from_round_balance(nr: usize, core: &[u64], round: &[u64], walked: Walked) -> Verdict
    requires { (walked.core ≤ rows core_layout core.now) × (walked.round ≤ rows round_layout round.now) × Even nr core.now round.now walked.core walked.round }
    ensures { result ≡ from_round_balance (core_kind nr) round_kind core.now round.now }
{
    if let Some(Spot { row, index }) = first_unbalanced(
        nr,
        core,
        round,
        walked.core,
        walked.round,
        round,
        Table::Round,
    ) {
        return Verdict::Unbalanced {
            table: Table::Round,
            row,
            index,
        };
    }
    Verdict::Holds {
        active: active_rows(core, Table::Core),
    }
}

// From the unbalanced tuples of core rows on. What the walk passes is even, in the writer's order every row, and is not counted.
fn from_core_balance(nr: usize, core: &[u64], round: &[u64]) -> Verdict
    ensures { result ≡ from_core_balance (core_kind nr) round_kind core.now round.now }
{
    let walked = walk(nr, core, round);
    if let Some(Spot { row, index }) = first_unbalanced(
        nr,
        core,
        round,
        walked.core,
        walked.round,
        core,
        Table::Core,
    ) {
        return Verdict::Unbalanced {
            table: Table::Core,
            row,
            index,
        };
    }
    from_round_balance(nr, core, round, walked)
}

// From the values of round rows on.
fn from_round_value(nr: usize, core: &[u64], round: &[u64]) -> Verdict
    requires { Elements round.now }
    ensures { result ≡ from_round_value (core_kind nr) round_kind core.now round.now }
{
    if let Some(Spot { row, index }) = first_failure(round, Table::Round, Check::Values) {
        return Verdict::Value {
            table: Table::Round,
            row,
            index,
        };
    }
    if let Some(Spot { row, index }) = first_failure(round, Table::Round, Check::Lookups) {
        return Verdict::Lookup {
            table: Table::Round,
            row,
            index,
        };
    }
    from_core_balance(nr, core, round)
}

// From the values of core rows on: the verdict on tables that pass the checks.
pub fn from_core_value(nr: usize, core: &[u64], round: &[u64]) -> Verdict
    requires { Elements core.now × Elements round.now }
    ensures { result ≡ from_core_value (core_kind nr) round_kind core.now round.now }
{
    if let Some(Spot { row, index }) = first_failure(core, Table::Core, Check::Values) {
        return Verdict::Value {
            table: Table::Core,
            row,
            index,
        };
    }
    if let Some(Spot { row, index }) = first_failure(core, Table::Core, Check::Lookups) {
        return Verdict::Lookup {
            table: Table::Core,
            row,
            index,
        };
    }
    if let Some(row) = first_repeat(core) {
        return Verdict::Repeated { row };
    }
    from_round_value(nr, core, round)
}

// The verdict for a number of rounds that is not refused: whole rows, then words, then the rows.
fn judged(nr: usize, core: &[u64], round: &[u64]) -> Verdict
    ensures { result ≡ verdict_at nr core.now round.now }
{
    if let Err(refusal) = check_rows(core, round) {
        return Verdict::Refused(refusal);
    }
    if let Err(refusal) = check_words(core, round) {
        return Verdict::Refused(refusal);
    }
    from_core_value(nr, core, round)
}

// The verdict on a core table and a round table for nr rounds.
pub fn verdict(nr: u64, core: &[u64], round: &[u64]) -> Verdict
    ensures { result ≡ verdict_for nr core.now round.now }
{
    if let Err(refusal) = check_rounds(nr) {
        return Verdict::Refused(refusal);
    }
    judged(nr as usize, core, round)
}
