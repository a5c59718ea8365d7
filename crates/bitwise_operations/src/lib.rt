// tables/bitwise.rs: a lookup and its constructors; lookups lent as a flat list, counted into the counters or into the
// table.
#![tactic(auto)]

ghost use Rattle.std.specs.Prelude.{◌≡◌};
ghost use Rattle.bitwise.specs.Row.{index_refusal};
ghost use Rattle.bitwise.specs.Tuples.{lookup-type-index};
ghost use Rattle.bitwise_operations.specs.Operation.{operation, twenty_bits, operation_of, zero_refusal};
ghost use Rattle.bitwise.specs.declared.BitwiseOperationType.TheVariants.{Zero, IsB20};

use answer::Refusal;
use bitwise::BitwiseOperationType;

pub mod checks;
pub mod counted;

// The words of a lookup in a flat list: the number of its kind, x, y and z.
pub const LOOKUP_WORDS: usize = 4;

// A lookup: x and y are bytes, z is below 16.
#[derive(Clone, Copy)]
pub struct BitwiseOperation {
    pub lookup_type: BitwiseOperationType,
    pub x: u8,
    pub y: u8,
    pub z: u8,
}

impl BitwiseOperation {
    #[tactic(auto, unfolding(bitwise::specs::Row::index_refusal, crate::specs::Operation::operation_of, answer::specs::Refusal::refuse_if))]
    pub fn new(
        lookup_type: BitwiseOperationType,
        x: u8,
        y: u8,
        z: u8,
    ) -> Result<BitwiseOperation, Refusal>
        ensures { result ≡ operation_of (operation lookup_type x y z) (index_refusal z) }
    {
        if z >= 16 {
            return Err(Refusal::PastEnd(16));
        }
        Ok(BitwiseOperation {
            lookup_type,
            x,
            y,
            z,
        })
    }

    // AND, OR and XOR of two bytes.
    pub fn byte_op(lookup_type: BitwiseOperationType, x: u8, y: u8) -> BitwiseOperation
        ensures { result ≡ operation lookup_type x y 0 }
    {
        BitwiseOperation {
            lookup_type,
            x,
            y,
            z: 0,
        }
    }

    // MSB8, and ARE_BYTES with y = 0.
    pub fn single_byte(lookup_type: BitwiseOperationType, x: u8) -> BitwiseOperation
        ensures { result ≡ operation lookup_type x 0 0 }
    {
        BitwiseOperation {
            lookup_type,
            x,
            y: 0,
            z: 0,
        }
    }

    // MSB16 and IS_HALF of x + 256 y.
    pub fn halfword(lookup_type: BitwiseOperationType, x: u8, y: u8) -> BitwiseOperation
        ensures { result ≡ operation lookup_type x y 0 }
    {
        BitwiseOperation {
            lookup_type,
            x,
            y,
            z: 0,
        }
    }

    // ZERO of x + 256 y + 65,536 z.
    #[tactic(auto, unfolding(crate::specs::Operation::zero_refusal, crate::specs::Operation::operation_of, answer::specs::Refusal::refuse_if))]
    pub fn zero(value: u32) -> Result<BitwiseOperation, Refusal>
        ensures { result ≡ operation_of (twenty_bits Zero value) (zero_refusal value) }
    {
        if value >= 1048576 {
            return Err(Refusal::PastEnd(1048576));
        }
        let x = value % 256;
        let y = value / 256 % 256;
        let z = value / 65536;
        Ok(BitwiseOperation {
            lookup_type: BitwiseOperationType::Zero,
            x: x as u8,
            y: y as u8,
            z: z as u8,
        })
    }

    // HWSL of x + 256 y, by z.
    pub fn shift_op(
        lookup_type: BitwiseOperationType,
        x: u8,
        y: u8,
        z: u8,
    ) -> Result<BitwiseOperation, Refusal>
        ensures { result ≡ operation_of (operation lookup_type x y z) (index_refusal z) }
    {
        BitwiseOperation::new(lookup_type, x, y, z)
    }

    // IS_B20 of x + 256 y + 65,536 z.
    pub fn b20(x: u8, y: u8, z: u8) -> Result<BitwiseOperation, Refusal>
        ensures { result ≡ operation_of (operation IsB20 x y z) (index_refusal z) }
    {
        BitwiseOperation::new(BitwiseOperationType::IsB20, x, y, z)
    }
}

// The number of a kind.
pub fn lookup_type_index(kind: BitwiseOperationType) -> usize
    ensures { result ≡ lookup-type-index kind }
{
    match kind {
        BitwiseOperationType::Msb8 => 0,
        BitwiseOperationType::Msb16 => 1,
        BitwiseOperationType::Zero => 2,
        BitwiseOperationType::AreBytes => 3,
        BitwiseOperationType::IsHalf => 4,
        BitwiseOperationType::IsB20 => 5,
        BitwiseOperationType::Hwsl => 6,
        BitwiseOperationType::ByteAluAnd => 7,
        BitwiseOperationType::ByteAluOr => 8,
        BitwiseOperationType::ByteAluXor => 9,
    }
}
