// What a call answers where it refuses: the refusals of the interface by their numbers. They are checked in the order of
// these, but for 7 and 11, which come after 4 and before 5, 8, 9, 10 and 14, which come before all others, and 12 and 13,
// which come after 1 and before 2.
#![tactic(auto)]

ghost use Rattle.std.specs.Prelude.{◌≡◌};
ghost use Rattle.answer.specs.Refusal.{refusal_number, refusal_detail, accepted, answer_of, not_rounds, not_floor};

// Each holds its detail. 1: an index, kind or count past its end: the least number refused. 2: a table or list that is
// not whole rows or operations: 0 core, 1 round, 2 list. 3: a lent slice too short: the length needed. 4: an address
// whose last lane would start past 2^64 - 1: the address. 5: a word that is no field element: its place in the slice.
// 6: a wrong mark or a cut record: the byte where that record starts. 7: an address that is no multiple of 8: the address.
// 8: a number of rounds that is 0 or above 24: that number. 9: a floor of table heights that is no power of two from 4 to
// 65,536: the floor. 10: a register that is not in use: its number. 11: a segment word of 2^32 or more: the word.
// 12: a message of more than 65,536 bytes: its length. 13: timestamps that pass 2^64 - 1: the first of them.
// 14: more than 4,096 files: their number.
#[derive(Clone, Copy)]
pub enum Refusal {
    PastEnd(u64),
    NotWhole(u64),
    TooShort(u64),
    HighAddress(u64),
    NotElement(u64),
    BadRecord(u64),
    Unaligned(u64),
    Rounds(u64),
    Floor(u64),
    Register(u64),
    Segment(u64),
    LongMessage(u64),
    LateTimestamp(u64),
    Files(u64),
}

impl Refusal {
    // The number by which the interface knows the refusal.
    pub fn number(self) -> u64
        ensures { result ≡ refusal_number self }
    {
        match self {
            Refusal::PastEnd(_) => 1,
            Refusal::NotWhole(_) => 2,
            Refusal::TooShort(_) => 3,
            Refusal::HighAddress(_) => 4,
            Refusal::NotElement(_) => 5,
            Refusal::BadRecord(_) => 6,
            Refusal::Unaligned(_) => 7,
            Refusal::Rounds(_) => 8,
            Refusal::Floor(_) => 9,
            Refusal::Register(_) => 10,
            Refusal::Segment(_) => 11,
            Refusal::LongMessage(_) => 12,
            Refusal::LateTimestamp(_) => 13,
            Refusal::Files(_) => 14,
        }
    }

    pub fn detail(self) -> u64
        ensures { result ≡ refusal_detail self }
    {
        match self {
            Refusal::PastEnd(limit) => limit,
            Refusal::NotWhole(which) => which,
            Refusal::TooShort(needed) => needed,
            Refusal::HighAddress(address) => address,
            Refusal::NotElement(place) => place,
            Refusal::BadRecord(start) => start,
            Refusal::Unaligned(address) => address,
            Refusal::Rounds(nr) => nr,
            Refusal::Floor(floor) => floor,
            Refusal::Register(register) => register,
            Refusal::Segment(word) => word,
            Refusal::LongMessage(length) => length,
            Refusal::LateTimestamp(timestamp) => timestamp,
            Refusal::Files(files) => files,
        }
    }
}

// The most operations in one list: the largest n with 24 n ≤ 2^31, so that their round table has at most 2^31 rows.
pub const MAX_OPS: u64 = 89478485;

// The most rounds of an operation: Keccak-f[1600] has 24.
pub const MAX_ROUNDS: u64 = 24;

// The check of the number of rounds, which every call that takes one makes first.
pub fn check_rounds(nr: u64) -> Result<(), Refusal>
    ensures { result ≡ answer_of (not_rounds nr accepted) }
{
    if nr == 0 {
        return Err(Refusal::Rounds(nr));
    }
    if nr > MAX_ROUNDS {
        return Err(Refusal::Rounds(nr));
    }
    Ok(())
}

// The check of a floor of table heights: one power of two after the other, from 4 to 65,536.
pub fn check_floor(floor: u64) -> Result<(), Refusal>
    ensures { result ≡ answer_of (not_floor floor accepted) }
{
    for e in 0..15 {
        if floor == 2u64.pow(2 + e) {
            return Ok(());
        }
    }
    Err(Refusal::Floor(floor))
}

// Both, as the calls make them that take both: 8, then 9.
pub fn check_rounds_and_floor(nr: u64, floor: u64) -> Result<(), Refusal>
    ensures { result ≡ answer_of (not_rounds nr (not_floor floor accepted)) }
{
    check_rounds(nr)?;
    check_floor(floor)
}
