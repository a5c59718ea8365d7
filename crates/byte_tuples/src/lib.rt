// Tuples of bytes: op(a, b) = c on the ByteAlu bus, and two bytes on the AreBytes bus. One as a call by index gives it,
// and as words: one, or the eight of a lane.
#![tactic(auto)]

ghost use Rattle.std.specs.Prelude.{◌≡◌};
ghost use Rattle.byte_tuples.specs.Lanes.{op_number};

pub mod send;
pub mod words;

// What is looked up of two bytes.
#[derive(Clone, Copy)]
pub enum Op {
    And,
    Xor,
}

// The first value of a ByteAlu tuple.
pub fn op_number(op: Op) -> u64
    ensures { result ≡ op_number op }
{
    match op {
        Op::And => 0,
        Op::Xor => 2,
    }
}
