// A reader of an operation file, and what it says at the end, as flat structs of words.
ghost use Rattle.std.specs.Prelude.{◌≡◌};
ghost use Rattle.flat.specs.FlatReader.{refusal_of, reading_of, cursor_of, flat_cursor, flat_tally};

use super::{FlatCursor, FlatTally};
use answer::Refusal;
use op_file::{Begun, Reading, Segments, Sums, Whole};

#[tactic(auto, unfolding(crate::specs::FlatReader::refusal_of))]
fn refusal_of(number: u64, detail: u64) -> Refusal
    ensures { result ≡ refusal_of number detail }
{
    match number {
        1 => Refusal::PastEnd(detail),
        2 => Refusal::NotWhole(detail),
        3 => Refusal::TooShort(detail),
        4 => Refusal::HighAddress(detail),
        5 => Refusal::NotElement(detail),
        7 => Refusal::Unaligned(detail),
        8 => Refusal::Rounds(detail),
        9 => Refusal::Floor(detail),
        10 => Refusal::Register(detail),
        11 => Refusal::Segment(detail),
        12 => Refusal::LongMessage(detail),
        13 => Refusal::LateTimestamp(detail),
        14 => Refusal::Files(detail),
        _ => Refusal::BadRecord(detail),
    }
}

// A reader that has met no fault.
#[tactic(auto, unfolding(crate::specs::FlatReader::reading_of))]
fn reading(c: FlatCursor) -> Reading
    ensures { result ≡ reading_of c }
{
    let segments = Segments {
        shown: c.segments,
        least: c.least_segment,
        greatest: c.greatest_segment,
    };
    let whole = Whole {
        n: c.records,
        unaligned: c.unaligned,
        start: c.start,
        segments,
    };
    let begun = Begun {
        at: c.at,
        mark: c.mark,
        addr: c.address,
        tail: c.tail,
    };
    Reading { whole, begun }
}

#[tactic(auto, unfolding(crate::specs::FlatReader::cursor_of))]
pub fn cursor_of(c: FlatCursor) -> Result<Reading, Refusal>
    ensures { result ≡ cursor_of c }
{
    if c.reading == 1 {
        return Ok(reading(c));
    }
    Err(refusal_of(c.refusal, c.detail))
}

#[tactic(auto, unfolding(crate::specs::FlatReader::flat_cursor))]
pub fn flat_cursor(c: Result<Reading, Refusal>) -> FlatCursor
    ensures { result ≡ flat_cursor c }
{
    match c {
        Ok(at) => {
            let w = at.whole;
            let p = at.begun;
            let s = w.segments;
            FlatCursor {
                refusal: 0,
                detail: 0,
                reading: 1,
                records: w.n,
                at: p.at,
                address: p.addr,
                unaligned: w.unaligned,
                start: w.start,
                mark: p.mark,
                tail: p.tail,
                segments: s.shown,
                least_segment: s.least,
                greatest_segment: s.greatest,
            }
        }
        Err(refusal) => FlatCursor {
            refusal: refusal.number(),
            detail: refusal.detail(),
            reading: 0,
            records: 0,
            at: 0,
            address: 0,
            unaligned: 0,
            start: 0,
            mark: 0,
            tail: 0,
            segments: 0,
            least_segment: 0,
            greatest_segment: 0,
        },
    }
}

#[tactic(auto, unfolding(crate::specs::FlatReader::flat_tally))]
pub fn flat_tally(tally: Result<Sums, Refusal>) -> FlatTally
    ensures { result ≡ flat_tally tally }
{
    match tally {
        Ok(sums) => {
            let s = sums.segments;
            FlatTally {
                refusal: 0,
                detail: 0,
                done: 1,
                ops: sums.ops,
                core_rows: sums.core_rows,
                round_rows: sums.round_rows,
                byte_alu: sums.byte_alu,
                are_bytes: sums.are_bytes,
                keccak_rc: sums.keccak_rc,
                is_halfword: sums.is_halfword,
                is_wh: sums.is_wh,
                memw: sums.memw,
                ecall: sums.ecall,
                unaligned: sums.unaligned,
                segments: s.shown,
                least_segment: s.least,
                greatest_segment: s.greatest,
            }
        }
        Err(refusal) => FlatTally {
            refusal: refusal.number(),
            detail: refusal.detail(),
            done: 0,
            ops: 0,
            core_rows: 0,
            round_rows: 0,
            byte_alu: 0,
            are_bytes: 0,
            keccak_rc: 0,
            is_halfword: 0,
            is_wh: 0,
            memw: 0,
            ecall: 0,
            unaligned: 0,
            segments: 0,
            least_segment: 0,
            greatest_segment: 0,
        },
    }
}
