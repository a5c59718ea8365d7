// The four words by which a verdict is handed over.
#![tactic(auto)]

ghost use Rattle.std.specs.Prelude.{◌≡◌};
ghost use Rattle.verdict.specs.Verdict.{verdict_words};
ghost use Rattle.verdict.specs.declared.Verdict.TheVariants.{Value, Lookup, Unbalanced};

use verdict::{Table, Verdict};

fn value_words(table: Table, row: usize, index: usize) -> [u64; 4]
    ensures { result ≡ verdict_words (Value table row index) }
{
    match table {
        Table::Core => [1, 0, row as u64, index as u64],
        Table::Round => [4, 1, row as u64, index as u64],
    }
}

fn lookup_words(table: Table, row: usize, index: usize) -> [u64; 4]
    ensures { result ≡ verdict_words (Lookup table row index) }
{
    match table {
        Table::Core => [2, 0, row as u64, index as u64],
        Table::Round => [5, 1, row as u64, index as u64],
    }
}

fn unbalanced_words(table: Table, row: usize, index: usize) -> [u64; 4]
    ensures { result ≡ verdict_words (Unbalanced table row index) }
{
    match table {
        Table::Core => [6, 0, row as u64, index as u64],
        Table::Round => [6, 1, row as u64, index as u64],
    }
}

pub fn verdict_words(verdict: Verdict) -> [u64; 4]
    ensures { result ≡ verdict_words verdict }
{
    match verdict {
        Verdict::Holds { active } => [0, active as u64, 0, 0],
        Verdict::Value { table, row, index } => value_words(table, row, index),
        Verdict::Lookup { table, row, index } => lookup_words(table, row, index),
        Verdict::Repeated { row } => [3, 0, row as u64, 0],
        Verdict::Unbalanced { table, row, index } => unbalanced_words(table, row, index),
        Verdict::Refused(refusal) => [7, refusal.number(), refusal.detail(), 0],
    }
}
