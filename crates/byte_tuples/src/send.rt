// A tuple whose values go to the front of a lent slice.
ghost use Rattle.std.specs.Prelude.{◌≡◌, [], ◌∷◌, ◌≤◌, length};
ghost use Rattle.answer.specs.Refusal.{overwrite};
ghost use Rattle.tuple.specs.Tuple.{sender};
ghost use Rattle.tuple.specs.Call.{interaction_of};
ghost use Rattle.tuple.specs.declared.Bus.TheVariants.{ByteAlu, AreBytes};

use tuple::{Bus, BusInteraction, Side};

// op(a, b) = c on the ByteAlu bus.
pub fn send_alu(
    multiplicity: u64,
    op: u64,
    a: u64,
    b: u64,
    c: u64,
    out: &mut [u64],
) -> BusInteraction
    requires { 4 ≤ length out.old }
    ensures answer { result ≡ interaction_of (sender ByteAlu multiplicity (op ∷ a ∷ b ∷ c ∷ [])) }
    ensures words { out.new ≡ overwrite (op ∷ a ∷ b ∷ c ∷ []) out.old }
{
    out[0] = op;
    out[1] = a;
    out[2] = b;
    out[3] = c;
    BusInteraction {
        bus: Bus::ByteAlu,
        side: Side::Sender,
        length: 4,
        multiplicity,
    }
}

// a and b are bytes, in padding rows too: the multiplicity is one.
pub fn send_bytes(a: u64, b: u64, out: &mut [u64]) -> BusInteraction
    requires { 2 ≤ length out.old }
    ensures answer { result ≡ interaction_of (sender AreBytes 1 (a ∷ b ∷ [])) }
    ensures words { out.new ≡ overwrite (a ∷ b ∷ []) out.old }
{
    out[0] = a;
    out[1] = b;
    BusInteraction {
        bus: Bus::AreBytes,
        side: Side::Sender,
        length: 2,
        multiplicity: 1,
    }
}
