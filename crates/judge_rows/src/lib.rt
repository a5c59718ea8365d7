// The first failure of a table. Each row is handed, as the part of the slice that it is, to a function that fills a word
// for each value or each tuple, 0 where it is good; the scan is left at the first word that is not 0.
#![tactic(auto)]

ghost use Rattle.std.specs.Prelude.{◌≡◌, ℕ, ◌≤◌, length};
ghost use Rattle.lists.specs.Tab.{word};
ghost use Rattle.field.specs.Elements.{ElementRow};
ghost use Rattle.residue.specs.Residue.{or_all};
ghost use Rattle.keccak_rnd.specs.Tuples.{NUM-TUPLES};
ghost use Rattle.verdict.specs.Kind.{Elements};
ghost use Rattle.judge_scan.specs.Spot.{spot_of};
ghost use Rattle.judge_scan.specs.Tables.{kind_of, layout_of};
ghost use Rattle.judge_rows.specs.Checks.{size_of, first_failure, Tells};

use judge_scan::{Spot, width_of};
use keccak;
use keccak_lookups::put_core_lookups;
use keccak_rnd;
use keccak_rnd_lookups::put_round_lookups;
use keccak_rnd_values::put_round_values;
use keccak_values::put_core_values;
use verdict::Table;

// What is looked at in a row: its values, or its tuples.
#[derive(Clone, Copy)]
pub enum Check {
    Values,
    Lookups,
}

// The OR of n words: 0 where none is left to look for.
fn or_of(words: &[u64], n: usize) -> u64
    requires { n ≤ length words.now }
    ensures { result ≡ or_all n (word words.now) }
{
    let mut all: u64 = 0;
    for i in 0..n {
        all = words[i] | all;
    }
    all
}

// How many there are of them in a row.
fn size_of(table: Table, check: Check) -> usize
    ensures { (nr : ℕ) → result ≡ size_of (kind_of nr table) check }
{
    match check {
        Check::Values => match table {
            Table::Core => keccak::NUM_VALUES,
            Table::Round => keccak_rnd::NUM_VALUES,
        },
        Check::Lookups => match table {
            Table::Core => keccak::NUM_TUPLES,
            Table::Round => keccak_rnd::NUM_TUPLES,
        },
    }
}

// A word for each of them, 0 where it is good, into the first words of `out`.
fn put_words(row: &[u64], table: Table, check: Check, out: &mut [u64])
    requires { ElementRow (layout_of table).width row.now × (NUM-TUPLES ≤ length out.old) }
    ensures { (nr : ℕ) → Tells (kind_of nr table) check row.now out.old out.new }
{
    match check {
        Check::Values => match table {
            Table::Core => put_core_values(row, out),
            Table::Round => put_round_values(row, out),
        },
        Check::Lookups => match table {
            Table::Core => put_core_lookups(row, out),
            Table::Round => put_round_lookups(row, out),
        },
    }
}

// The first row of a table with one that is not good, and the first such one in it. Nothing that is looked at depends on
// the number of rounds.
pub fn first_failure(words: &[u64], table: Table, check: Check) -> Option<Spot>
    requires { Elements words.now }
    ensures { (nr : ℕ) → result ≡ spot_of (first_failure (kind_of nr table) check words.now) }
{
    let width = width_of(table);
    let size = size_of(table, check);
    let rows = words.len() / width;
    let mut checks = [0u64; keccak_rnd::NUM_TUPLES];
    for row in 0..rows {
        let start = row * width;
        let end = start + width;
        put_words(&words[start..end], table, check, &mut checks);
        if or_of(&checks, size) != 0 {
            for index in 0..size {
                if checks[index] != 0 {
                    return Some(Spot { row, index });
                }
            }
        }
    }
    None
}
