// What is judged, as flat structs of words: a verdict on two tables, a file against a core table, a list against a message.
ghost use Rattle.std.specs.Prelude.{◌≡◌};
ghost use Rattle.flat.specs.FlatJudged.{failure, failed_in, flat_verdict, flat_agreement, flat_reply};

use super::{FlatAgreement, FlatReply, FlatVerdict};
use answer::Refusal;
use same_operations::Agreement;
use verdict::{Table, Verdict};

// A failure by its kind and its table, 0 core and 1 round.
#[tactic(auto, unfolding(crate::specs::FlatJudged::failure))]
fn failure(kind: u64, table: u64, row: usize, index: usize) -> FlatVerdict
    ensures { result ≡ failure kind table row index }
{
    FlatVerdict {
        refusal: 0,
        detail: 0,
        holds: 0,
        active: 0,
        kind,
        table,
        row: row as u64,
        index: index as u64,
    }
}

// A failure of one kind in a core row, of another in a round row.
#[tactic(auto, unfolding(crate::specs::FlatJudged::failed_in))]
fn failed(core: u64, round: u64, table: Table, row: usize, index: usize) -> FlatVerdict
    ensures { result ≡ failed_in core round table row index }
{
    match table {
        Table::Core => failure(core, 0, row, index),
        Table::Round => failure(round, 1, row, index),
    }
}

#[tactic(auto, unfolding(crate::specs::FlatJudged::flat_verdict))]
pub fn flat_verdict(verdict: Verdict) -> FlatVerdict
    ensures { result ≡ flat_verdict verdict }
{
    match verdict {
        Verdict::Holds { active } => FlatVerdict {
            refusal: 0,
            detail: 0,
            holds: 1,
            active: active as u64,
            kind: 7,
            table: 0,
            row: 0,
            index: 0,
        },
        Verdict::Value { table, row, index } => failed(1, 4, table, row, index),
        Verdict::Lookup { table, row, index } => failed(2, 5, table, row, index),
        Verdict::Repeated { row } => failure(3, 0, row, 0),
        Verdict::Unbalanced { table, row, index } => failed(6, 6, table, row, index),
        Verdict::Refused(refusal) => FlatVerdict {
            refusal: refusal.number(),
            detail: refusal.detail(),
            holds: 0,
            active: 0,
            kind: 0,
            table: 0,
            row: 0,
            index: 0,
        },
    }
}

#[tactic(auto, unfolding(crate::specs::FlatJudged::flat_agreement))]
pub fn flat_agreement(answer: Result<Agreement, Refusal>) -> FlatAgreement
    ensures { result ≡ flat_agreement answer }
{
    match answer {
        Ok(Agreement::Same) => FlatAgreement {
            refusal: 0,
            detail: 0,
            same: 1,
            kind: 3,
            place: 0,
        },
        Ok(Agreement::Record(record)) => FlatAgreement {
            refusal: 0,
            detail: 0,
            same: 0,
            kind: 1,
            place: record as u64,
        },
        Ok(Agreement::Row(row)) => FlatAgreement {
            refusal: 0,
            detail: 0,
            same: 0,
            kind: 2,
            place: row as u64,
        },
        Err(refusal) => FlatAgreement {
            refusal: refusal.number(),
            detail: refusal.detail(),
            same: 0,
            kind: 0,
            place: 0,
        },
    }
}

#[tactic(auto, unfolding(crate::specs::FlatJudged::flat_reply))]
pub fn flat_reply(judgement: Result<bool, Refusal>) -> FlatReply
    ensures { result ≡ flat_reply judgement }
{
    match judgement {
        Ok(yes) => FlatReply {
            refusal: 0,
            detail: 0,
            yes: u64::from(yes),
        },
        Err(refusal) => FlatReply {
            refusal: refusal.number(),
            detail: refusal.detail(),
            yes: 0,
        },
    }
}
