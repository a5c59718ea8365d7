// The answers of calls as flat structs of words: an enum can't pass by C linkage. Each begins with number and detail of the
// refusal, both 0 where the call did its work. The third word is 1 exactly where the answer is good, so that no words of
// zeros read as good: `done`, of a verdict `holds`, of a file against a table `same`, of a message `yes`, of a reader
// `reading`.
#![tactic(auto)]

ghost use Rattle.std.specs.Prelude.{◌≡◌};
ghost use Rattle.flat.specs.Flat.{flat_answer, flat_number, flat_tuple, flat_key};

use answer::Refusal;
use is_wh::IsWhKey;
use tuple::BusInteraction;
use tuple::header::{bus_number, side_number};

pub mod judged;
pub mod lookup;
pub mod reader;

#[repr(C)]
#[derive(Clone, Copy)]
pub struct FlatAnswer {
    pub refusal: u64,
    pub detail: u64,
    pub done: u64,
}

// The number that was asked for.
#[repr(C)]
#[derive(Clone, Copy)]
pub struct FlatNumber {
    pub refusal: u64,
    pub detail: u64,
    pub done: u64,
    pub value: u64,
}

// The tuple but for its values, which are in the lent slice.
#[repr(C)]
#[derive(Clone, Copy)]
pub struct FlatTuple {
    pub refusal: u64,
    pub detail: u64,
    pub done: u64,
    pub bus: u64,
    pub side: u64,
    pub length: u64,
    pub multiplicity: u64,
}

#[repr(C)]
#[derive(Clone, Copy)]
pub struct FlatKey {
    pub refusal: u64,
    pub detail: u64,
    pub done: u64,
    pub word: u64,
    pub half: u64,
}

// The four words of a lookup in a list.
#[repr(C)]
#[derive(Clone, Copy)]
pub struct FlatLookup {
    pub refusal: u64,
    pub detail: u64,
    pub done: u64,
    pub kind: u64,
    pub x: u64,
    pub y: u64,
    pub z: u64,
}

// The verdict on two tables: the number of active core rows where they hold; a kind, 1 to 6 the failure's place in the
// verdict's order, 7 where they hold; the failure's table, row and index.
#[repr(C)]
#[derive(Clone, Copy)]
pub struct FlatVerdict {
    pub refusal: u64,
    pub detail: u64,
    pub holds: u64,
    pub active: u64,
    pub kind: u64,
    pub table: u64,
    pub row: u64,
    pub index: u64,
}

// What a file and a core table say of each other: a kind, 1 and the number of the first record without a partner; 2 and the
// number of the first active row left; 3 both record the same calls.
#[repr(C)]
#[derive(Clone, Copy)]
pub struct FlatAgreement {
    pub refusal: u64,
    pub detail: u64,
    pub same: u64,
    pub kind: u64,
    pub place: u64,
}

// Whether a list is a message's.
#[repr(C)]
#[derive(Clone, Copy)]
pub struct FlatReply {
    pub refusal: u64,
    pub detail: u64,
    pub yes: u64,
}

// Where a reader stands: number and detail of the first fault, or 0 and 0 and 1 while there is none, and then the whole
// records at multiples of 8, the bytes of the next, what its address bytes so far make, the whole records at other
// addresses, where the next one starts, the second byte of its mark, what the bytes of its segment number so far make, and
// of the records at multiples of 8 whether one has a segment number, the least and the greatest.
#[repr(C)]
#[derive(Clone, Copy)]
pub struct FlatCursor {
    pub refusal: u64,
    pub detail: u64,
    pub reading: u64,
    pub records: u64,
    pub at: usize,
    pub address: u64,
    pub unaligned: u64,
    pub start: u64,
    pub mark: u64,
    pub tail: u64,
    pub segments: u64,
    pub least_segment: u64,
    pub greatest_segment: u64,
}

// The ten numbers of a file, the number of records that they leave out, and 1 and the least and the greatest segment number,
// or three zeros where no counted record is marked 4B 50.
#[repr(C)]
#[derive(Clone, Copy)]
pub struct FlatTally {
    pub refusal: u64,
    pub detail: u64,
    pub done: u64,
    pub ops: u64,
    pub core_rows: u64,
    pub round_rows: u64,
    pub byte_alu: u64,
    pub are_bytes: u64,
    pub keccak_rc: u64,
    pub is_halfword: u64,
    pub is_wh: u64,
    pub memw: u64,
    pub ecall: u64,
    pub unaligned: u64,
    pub segments: u64,
    pub least_segment: u64,
    pub greatest_segment: u64,
}

#[tactic(auto, unfolding(crate::specs::Flat::flat_answer))]
pub fn flat_answer(answer: Result<(), Refusal>) -> FlatAnswer
    ensures { result ≡ flat_answer answer }
{
    match answer {
        Ok(()) => FlatAnswer {
            refusal: 0,
            detail: 0,
            done: 1,
        },
        Err(refusal) => FlatAnswer {
            refusal: refusal.number(),
            detail: refusal.detail(),
            done: 0,
        },
    }
}

#[tactic(auto, unfolding(crate::specs::Flat::flat_number))]
pub fn flat_number(answer: Result<u64, Refusal>) -> FlatNumber
    ensures { result ≡ flat_number answer }
{
    match answer {
        Ok(value) => FlatNumber {
            refusal: 0,
            detail: 0,
            done: 1,
            value,
        },
        Err(refusal) => FlatNumber {
            refusal: refusal.number(),
            detail: refusal.detail(),
            done: 0,
            value: 0,
        },
    }
}

#[tactic(auto, unfolding(crate::specs::Flat::flat_tuple))]
pub fn flat_tuple(answer: Result<BusInteraction, Refusal>) -> FlatTuple
    ensures { result ≡ flat_tuple answer }
{
    match answer {
        Ok(tuple) => {
            let bus = tuple.bus;
            let side = tuple.side;
            FlatTuple {
                refusal: 0,
                detail: 0,
                done: 1,
                bus: bus_number(bus),
                side: side_number(side),
                length: tuple.length as u64,
                multiplicity: tuple.multiplicity,
            }
        }
        Err(refusal) => FlatTuple {
            refusal: refusal.number(),
            detail: refusal.detail(),
            done: 0,
            bus: 0,
            side: 0,
            length: 0,
            multiplicity: 0,
        },
    }
}

#[tactic(auto, unfolding(crate::specs::Flat::flat_key))]
pub fn flat_key(key: IsWhKey) -> FlatKey
    ensures { result ≡ flat_key key }
{
    FlatKey {
        refusal: 0,
        detail: 0,
        done: 1,
        word: key.word,
        half: key.half,
    }
}
