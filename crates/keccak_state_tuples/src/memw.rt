// The Memw tuples of a core row: old value (8), is_register, address (2), new value (8), timestamp (2), three flags. The
// numbers of 64 bits in them are read as ADD's operands are: the address, a pointer, the timestamp.
ghost use Rattle.std.specs.Prelude.{◌≡◌, [], ◌∷◌, ◌+◌, ◌<◌, ◌≤◌, length};
ghost use Rattle.std.proofs.lemmas.List.Edits.{sets};
ghost use Rattle.lists.specs.Tab.{word};
ghost use Rattle.field.specs.Elements.{ElementRow};
ghost use Rattle.answer.specs.Refusal.{overwrite};
ghost use Rattle.tuple.specs.Call.{interaction_of};
ghost use Rattle.keccak.specs.Columns.{NUM-COLUMNS};
ghost use Rattle.keccak.specs.Tuples.{addr_memw, lane_memw};

use add_template::add_words;
use keccak::{ADDR, INPUT_STATE, MU, OUTPUT_STATE, STATE_PTR, TIMESTAMP_0};
use lists::{put_part, put_words};
use templates::AddOperand;
use tuple::{Bus, BusInteraction, Side};

// A register's value, from `at`: two words and six zeros.
fn put_register(out: &mut [u64], at: usize, lo: u64, hi: u64)
    requires { at + 8 ≤ length out.old }
    ensures { out.new ≡ sets out.old at (lo ∷ hi ∷ 0 ∷ 0 ∷ 0 ∷ 0 ∷ 0 ∷ 0 ∷ []) }
{
    let words = [lo, hi, 0, 0, 0, 0, 0, 0];
    put_words(out, at, &words, 8);
}

// is_register and the two words of the address.
fn put_place(out: &mut [u64], register: u64, lo: u64, hi: u64)
    requires { 11 ≤ length out.old }
    ensures { out.new ≡ sets out.old 8 (register ∷ lo ∷ hi ∷ []) }
{
    out[8] = register;
    out[9] = lo;
    out[10] = hi;
}

// The timestamp and the flags write2, write4 and write8; write4 is 0.
fn put_access(out: &mut [u64], row: &[u64], write2: u64, write8: u64)
    requires { (24 ≤ length out.old) × ElementRow NUM-COLUMNS row.now }
    ensures { out.new ≡ sets out.old 19 (word row.now 0 ∷ word row.now 1 ∷ write2 ∷ 0 ∷ write8 ∷ []) }
{
    let timestamp = add_words(row, AddOperand::dword(TIMESTAMP_0));
    out[19] = timestamp.lo;
    out[20] = timestamp.hi;
    out[21] = write2;
    out[22] = 0;
    out[23] = write8;
}

// 1: register x10 is read; it holds the address.
pub fn addr_memw(row: &[u64], out: &mut [u64]) -> BusInteraction
    requires { ElementRow NUM-COLUMNS row.now × (24 ≤ length out.old) }
    ensures answer { result ≡ interaction_of (addr_memw row.now) }
    ensures words { out.new ≡ overwrite (addr_memw row.now).values out.old }
{
    let addr = add_words(row, AddOperand::from_dword_bl(ADDR));
    put_register(out, 0, addr.lo, addr.hi);
    put_place(out, 1, 20, 0);
    put_register(out, 11, addr.lo, addr.hi);
    put_access(out, row, 1, 0);
    BusInteraction {
        bus: Bus::Memw,
        side: Side::Sender,
        length: 24,
        multiplicity: row[MU],
    }
}

// 59 to 83: lane i is INPUT's before and OUTPUT's after, at the address that pointer i holds.
pub fn lane_memw(row: &[u64], i: usize, out: &mut [u64]) -> BusInteraction
    requires { ElementRow NUM-COLUMNS row.now × (i < 25) × (24 ≤ length out.old) }
    ensures answer { result ≡ interaction_of (lane_memw row.now i) }
    ensures words { out.new ≡ overwrite (lane_memw row.now i).values out.old }
{
    let pointer = add_words(row, AddOperand::from_dword_whh(STATE_PTR + 3 * i));
    put_part(out, 0, row, INPUT_STATE + 8 * i, 8);
    put_place(out, 0, pointer.lo, pointer.hi);
    put_part(out, 11, row, OUTPUT_STATE + 8 * i, 8);
    put_access(out, row, 0, 1);
    BusInteraction {
        bus: Bus::Memw,
        side: Side::Sender,
        length: 24,
        multiplicity: row[MU],
    }
}
