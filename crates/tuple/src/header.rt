// A tuple as words: the four that stand before its values.
ghost use Rattle.std.specs.Prelude.{◌≡◌, ◌+◌, ◌≤◌, length};
ghost use Rattle.std.proofs.lemmas.List.Edits.{sets};
ghost use Rattle.tuple.specs.Tuple.{bus_number, side_number};
ghost use Rattle.tuple.specs.Words.{header_words};

use super::{Bus, BusInteraction, Side};

pub fn bus_number(bus: Bus) -> u64
    ensures { result ≡ bus_number bus }
{
    match bus {
        Bus::ByteAlu => 0,
        Bus::AreBytes => 1,
        Bus::IsHalfword => 2,
        Bus::IsWh => 3,
        Bus::KeccakRc => 4,
        Bus::Keccak => 5,
        Bus::Memw => 6,
        Bus::Ecall => 7,
        Bus::Msb8 => 8,
        Bus::Msb16 => 9,
        Bus::Zero => 10,
        Bus::IsB20 => 11,
        Bus::Hwsl => 12,
    }
}

pub fn side_number(side: Side) -> u64
    ensures { result ≡ side_number side }
{
    match side {
        Side::Sender => 0,
        Side::Receiver => 1,
    }
}

// Bus and side by number, how many values, the multiplicity, from `at`.
pub fn put_header(out: &mut [u64], at: usize, tuple: BusInteraction)
    requires { at + 4 ≤ length out.old }
    ensures { out.new ≡ sets out.old at (header_words tuple) }
{
    let bus = tuple.bus;
    let side = tuple.side;
    out[at] = bus_number(bus);
    out[at + 1] = side_number(side);
    out[at + 2] = tuple.length as u64;
    out[at + 3] = tuple.multiplicity;
}
