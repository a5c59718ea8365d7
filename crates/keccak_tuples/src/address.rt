// The tuples 4 to 58 of a core row, by which the pointers and the address are checked.
ghost use Rattle.std.specs.Prelude.{◌≡◌, ◌+◌, ◌<◌, ◌≤◌, length};
ghost use Rattle.answer.specs.Refusal.{overwrite};
ghost use Rattle.tuple.specs.Call.{interaction_of};
ghost use Rattle.tuple.specs.declared.Side.TheVariants.{Sender};
ghost use Rattle.keccak.specs.Columns.{NUM-COLUMNS};
ghost use Rattle.keccak.specs.Tuples.{pointer_tuple, align_tuple, addr_bytes_tuple};

use is_wh::is_whh;
use keccak::{ADDR, MU, STATE_PTR};
use tuple::{Bus, BusInteraction, Side};

// A tuple that is sent, but for its values.
fn sent(bus: Bus, size: usize, mu: u64) -> BusInteraction
    ensures { result ≡ record { bus = bus; side = Sender; length = size; multiplicity = mu } }
{
    BusInteraction {
        bus,
        side: Side::Sender,
        length: size,
        multiplicity: mu,
    }
}

// 4 to 53: IS_WHH of pointer i, its word and middle half or its low half.
pub fn pointer_tuple(row: &[u64], i: usize, j: usize, out: &mut [u64]) -> BusInteraction
    requires { (NUM-COLUMNS ≤ length row.now) × (i < 25) × (length (pointer_tuple row.now i j).values ≤ length out.old) }
    ensures answer { result ≡ interaction_of (pointer_tuple row.now i j) }
    ensures words { out.new ≡ overwrite (pointer_tuple row.now i j).values out.old }
{
    is_whh(row, STATE_PTR + 3 * i, row[MU], j, out)
}

// 54: the lowest byte of the address AND 7 is 0.
pub fn align_tuple(row: &[u64], out: &mut [u64]) -> BusInteraction
    requires { (NUM-COLUMNS ≤ length row.now) × (4 ≤ length out.old) }
    ensures answer { result ≡ interaction_of (align_tuple row.now) }
    ensures words { out.new ≡ overwrite (align_tuple row.now).values out.old }
{
    out[0] = 0;
    out[1] = row[ADDR];
    out[2] = 7;
    out[3] = 0;
    sent(Bus::ByteAlu, 4, row[MU])
}

// 55 to 58: two columns of the address are bytes.
pub fn addr_bytes_tuple(row: &[u64], i: usize, out: &mut [u64]) -> BusInteraction
    requires { (NUM-COLUMNS ≤ length row.now) × (i < 4) × (2 ≤ length out.old) }
    ensures answer { result ≡ interaction_of (addr_bytes_tuple row.now i) }
    ensures words { out.new ≡ overwrite (addr_bytes_tuple row.now i).values out.old }
{
    let at = ADDR + 2 * i;
    out[0] = row[at];
    out[1] = row[at + 1];
    sent(Bus::AreBytes, 2, row[MU])
}
