// tables/bitwise.rs: the kinds of lookup by their numbers, with the bus and the number of values of each.
ghost use Rattle.std.specs.Prelude.{◌≡◌};
ghost use Rattle.bitwise.specs.Tuples.{kind_at, kind_bus, kind_size};

use bitwise::BitwiseOperationType;
use tuple::Bus;

// The kind of a number below 10; past that the last one.
#[tactic(auto, unfolding(bitwise::specs::Tuples::kind_at))]
pub fn kind_at(index: usize) -> BitwiseOperationType
    ensures { result ≡ kind_at index }
{
    match index {
        0 => BitwiseOperationType::Msb8,
        1 => BitwiseOperationType::Msb16,
        2 => BitwiseOperationType::Zero,
        3 => BitwiseOperationType::AreBytes,
        4 => BitwiseOperationType::IsHalf,
        5 => BitwiseOperationType::IsB20,
        6 => BitwiseOperationType::Hwsl,
        7 => BitwiseOperationType::ByteAluAnd,
        8 => BitwiseOperationType::ByteAluOr,
        _ => BitwiseOperationType::ByteAluXor,
    }
}

pub fn kind_bus(kind: BitwiseOperationType) -> Bus
    ensures { result ≡ kind_bus kind }
{
    match kind {
        BitwiseOperationType::Msb8 => Bus::Msb8,
        BitwiseOperationType::Msb16 => Bus::Msb16,
        BitwiseOperationType::Zero => Bus::Zero,
        BitwiseOperationType::AreBytes => Bus::AreBytes,
        BitwiseOperationType::IsHalf => Bus::IsHalfword,
        BitwiseOperationType::IsB20 => Bus::IsB20,
        BitwiseOperationType::Hwsl => Bus::Hwsl,
        BitwiseOperationType::ByteAluAnd => Bus::ByteAlu,
        BitwiseOperationType::ByteAluOr => Bus::ByteAlu,
        BitwiseOperationType::ByteAluXor => Bus::ByteAlu,
    }
}

// How many values a kind has.
pub fn kind_size(kind: BitwiseOperationType) -> usize
    ensures { result ≡ kind_size kind }
{
    match kind {
        BitwiseOperationType::Msb8 => 2,
        BitwiseOperationType::Msb16 => 2,
        BitwiseOperationType::Zero => 2,
        BitwiseOperationType::AreBytes => 2,
        BitwiseOperationType::IsHalf => 1,
        BitwiseOperationType::IsB20 => 1,
        BitwiseOperationType::Hwsl => 4,
        BitwiseOperationType::ByteAluAnd => 4,
        BitwiseOperationType::ByteAluOr => 4,
        BitwiseOperationType::ByteAluXor => 4,
    }
}
