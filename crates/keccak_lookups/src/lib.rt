// tables/keccak.rs, bus_interactions: a word for each tuple of a core row that is 0 exactly where the tuple needs no match
// or has one.
#![tactic(auto)]

ghost use Rattle.std.specs.Prelude.{◌≡◌, ℕ, ◌/◌, ◌%◌, ◌≤◌, length};
ghost use Rattle.std.proofs.lemmas.List.Edits.{sets};
ghost use Rattle.lists.specs.Tab.{tab};
ghost use Rattle.keccak.specs.Columns.{NUM-COLUMNS};
ghost use Rattle.keccak.specs.Tuples.{NUM-TUPLES, pointer_tuple, align_tuple, addr_bytes_tuple, core_tuple};
ghost use Rattle.residue.specs.Residue.{residues, Marked};

use bits::put_zeros;
use keccak::{ADDR, ADDR_TUPLES, ALIGN_TUPLE, LANE_TUPLES, MU, POINTER_TUPLES, STATE_PTR};
use residue::{and_residue, bytes_residue, half_residue, is_wh_residue};

// A pointer sends its word and its middle half, then its low half.
fn put_pointers(row: &[u64], out: &mut [u64])
    requires { (NUM-COLUMNS ≤ length row.now) × (54 ≤ length out.old) }
    ensures { out.new ≡ sets out.old 4 (tab 50 (residues (λ i. pointer_tuple row.now (i / 2) (i % 2)))) }
{
    for i in 0..25 {
        let at = STATE_PTR + 3 * i;
        let pair = is_wh_residue(row[MU], row[at + 2], row[at + 1]);
        let low = half_residue(row[MU], row[at]);
        out[POINTER_TUPLES + 2 * i] = pair;
        out[POINTER_TUPLES + (2 * i + 1)] = low;
    }
}

// The lowest byte of the address AND 7 is 0.
fn put_align(row: &[u64], out: &mut [u64])
    requires { (NUM-COLUMNS ≤ length row.now) × (55 ≤ length out.old) }
    ensures { out.new ≡ sets out.old 54 (tab 1 (residues (λ i. align_tuple row.now))) }
{
    out[ALIGN_TUPLE] = and_residue(row[MU], row[ADDR], 7, 0);
}

// The four pairs of the address's bytes.
fn put_address(row: &[u64], out: &mut [u64])
    requires { (NUM-COLUMNS ≤ length row.now) × (59 ≤ length out.old) }
    ensures { out.new ≡ sets out.old 55 (tab 4 (residues (addr_bytes_tuple row.now))) }
{
    for i in 0..4 {
        out[ADDR_TUPLES + i] = bytes_residue(row[MU], row[ADDR + 2 * i], row[ADDR + (2 * i + 1)]);
    }
}

// The words of a row's tuples, into the first 84 of `out`. Four before the pointers', and the lanes in memory behind the
// address's, need no match here, so the number of rounds is not asked for.
pub fn put_core_lookups(row: &[u64], out: &mut [u64])
    requires { (NUM-COLUMNS ≤ length row.now) × (NUM-TUPLES ≤ length out.old) }
    ensures { (nr : ℕ) → Marked NUM-TUPLES (core_tuple nr 0 row.now) out.old out.new }
{
    put_zeros(out, 0, POINTER_TUPLES);
    put_pointers(row, out);
    put_align(row, out);
    put_address(row, out);
    put_zeros(out, LANE_TUPLES, 25);
}
