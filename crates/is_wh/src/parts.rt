// What the tuples of tables/is_wh.rs are made of: one value, a pair, the word of a pair.
ghost use Rattle.std.specs.Prelude.{◌≡◌, [], ◌∷◌, ◌<◌, ◌≤◌, length};
ghost use Rattle.field.specs.Field.{p, fadd, fmul};
ghost use Rattle.answer.specs.Refusal.{overwrite};
ghost use Rattle.tuple.specs.Tuple.{sender};
ghost use Rattle.tuple.specs.Call.{interaction_of};
ghost use Rattle.tuple.specs.declared.Bus.TheVariants.{IsWh};

use field::Fe;
use tuple::{Bus, BusInteraction, Side};

// A tuple of one value, sent.
pub fn send_one(bus: Bus, multiplicity: u64, value: u64, out: &mut [u64]) -> BusInteraction
    requires { 1 ≤ length out.old }
    ensures answer { result ≡ interaction_of (sender bus multiplicity (value ∷ [])) }
    ensures words { out.new ≡ overwrite (value ∷ []) out.old }
{
    out[0] = value;
    BusInteraction {
        bus,
        side: Side::Sender,
        length: 1,
        multiplicity,
    }
}

// A pair on the IsWh bus.
pub fn pair(side: Side, multiplicity: u64, word: u64, half: u64, out: &mut [u64]) -> BusInteraction
    requires { 2 ≤ length out.old }
    ensures answer { result ≡ record { bus = IsWh; side = side; length = 2; multiplicity = multiplicity } }
    ensures words { out.new ≡ overwrite (word ∷ half ∷ []) out.old }
{
    out[0] = word;
    out[1] = half;
    BusInteraction {
        bus: Bus::IsWh,
        side,
        length: 2,
        multiplicity,
    }
}

// low + 2^16 high mod P.
pub fn pair_word(low: u64, high: u64) -> u64
    requires { low < p }
    ensures { result ≡ fadd low (fmul 65536 high) }
{
    let scaled = Fe { value: 65536 }.mul(Fe { value: high });
    let sum = Fe { value: low }.add(scaled);
    sum.value
}
