// The operation file: how long a record is, where a reader stands, and what `tally` prints.
#![tactic(auto)]

// A record under the mark 4B 4F, and one under 4B 50, which has four bytes more: its segment number.
pub const RECORD_BYTES: usize = 418;

pub const SEGMENT_RECORD_BYTES: usize = 422;

// The byte that both marks begin with, and the second one of each.
pub const FIRST_MARK: u8 = 0x4B;

pub const PLAIN_MARK: u8 = 0x4F;

pub const SEGMENT_MARK: u8 = 0x50;

// The most bytes that a file may have: of as many records as it may have, all under 4B 50.
pub const MAX_FILE_BYTES: u64 = 37759920670;

// The segment numbers of counted records: 1 where one of these is marked 4B 50, else 0; and the least and the greatest of
// all. A word, not a `bool`: a reader is words alone, as it is handed from call to call.
#[derive(Clone, Copy)]
pub struct Segments {
    pub shown: u64,
    pub least: u64,
    pub greatest: u64,
}

// The whole records that are read: n at multiples of 8, which are counted, and `unaligned` at other addresses; where the
// next one starts; and the segment numbers of the counted ones.
#[derive(Clone, Copy)]
pub struct Whole {
    pub n: u64,
    pub unaligned: u64,
    pub start: u64,
    pub segments: Segments,
}

// The record that is being read: how many of its bytes, the second byte of its mark (0 before it is read), and what its
// address bytes and its segment number's bytes so far make.
#[derive(Clone, Copy)]
pub struct Begun {
    pub at: usize,
    pub mark: u64,
    pub addr: u64,
    pub tail: u64,
}

// Where a reader stands.
#[derive(Clone, Copy)]
pub struct Reading {
    pub whole: Whole,
    pub begun: Begun,
}

// What `tally` prints of a file: operations, heights, per bus the sum of multiplicities, the segment numbers, and the
// records that these leave out, because their addresses are no multiples of 8.
#[derive(Clone, Copy)]
pub struct Sums {
    pub ops: u64,
    pub core_rows: u64,
    pub round_rows: u64,
    pub byte_alu: u64,
    pub are_bytes: u64,
    pub keccak_rc: u64,
    pub is_halfword: u64,
    pub is_wh: u64,
    pub memw: u64,
    pub ecall: u64,
    pub segments: Segments,
    pub unaligned: u64,
}
