// The words of a line behind its first: each has a space before it.
ghost use Rattle.std.specs.Prelude.{◌≡◌, [], ◌∷◌, map, ◌+◌, ◌*◌, ◌≤◌, length, take, drop, get_or};
ghost use Rattle.text.specs.Text.{Puts, decimal_of, spaced};
ghost use Rattle.text.specs.Names.{bus_name};
ghost use Rattle.tuple.specs.Tuple.{bus_number};
ghost use Rattle.tuple.specs.declared.Bus.{Bus};

use super::{put, put_decimal};
use tuple::Bus;
use tuple::header::bus_number;

pub fn put_word(out: &mut [u8], at: usize, word: &[u8]) -> usize
    requires { at + 1 + length word.now ≤ length out.old }
    ensures { Puts out.old at (spaced (word.now ∷ [])) out.new result × (result ≤ at + 1 + length word.now) }
{
    out[at] = 32;
    put(out, at + 1, word)
}

pub fn put_number(out: &mut [u8], at: usize, n: u64) -> usize
    requires { at + 21 ≤ length out.old }
    ensures { Puts out.old at (spaced (decimal_of n ∷ [])) out.new result × (result ≤ at + 21) }
{
    out[at] = 32;
    put_decimal(out, at + 1, n)
}

// The first n of the values, in their order.
pub fn put_values(values: &[u64], n: usize, out: &mut [u8], at: usize) -> usize
    requires { (n ≤ length values.now) × (at + n * 21 ≤ length out.old) }
    ensures { Puts out.old at (spaced (map decimal_of (take n values.now))) out.new result × (result ≤ at + n * 21) }
{
    let mut end = at;
    for i in 0..n {
        end = put_number(out, end, values[i]);
    }
    end
}

// The names of the buses by their numbers, ten bytes for each.
fn names() -> [u8; 130]
    ensures { (length result ≡ 130) × ((b : Bus) → take (length (bus_name b)) (drop (10 * bus_number b) result) ≡ bus_name b) }
{
    *b"ByteAlu   AreBytes  IsHalfwordIsWh      KeccakRc  Keccak    Memw      Ecall     Msb8      Msb16     Zero      IsB20     Hwsl      "
}

// How long the names are.
fn lengths() -> [usize; 13]
    ensures { (length result ≡ 13) × ((b : Bus) → get_or result (bus_number b) 0 ≡ length (bus_name b)) }
{
    [7, 8, 10, 4, 8, 6, 4, 5, 4, 5, 4, 5, 4]
}

// A bus by its name.
pub fn put_bus(out: &mut [u8], at: usize, bus: Bus) -> usize
    requires { at + 11 ≤ length out.old }
    ensures { Puts out.old at (spaced (bus_name bus ∷ [])) out.new result × (result ≤ at + 11) }
{
    let n = bus_number(bus) as usize;
    let bytes = names();
    let sizes = lengths();
    let from = 10 * n;
    let end = from + sizes[n];
    put_word(out, at, &bytes[from..end])
}
