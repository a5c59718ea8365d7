// tables/keccak_rnd.rs, bus_interactions: a word for each tuple of a round row that is 0 exactly where the tuple needs no
// match or has one.
#![tactic(auto)]

ghost use Rattle.std.specs.Prelude.{◌≡◌, ◌+◌, ◌-◌, ◌*◌, ◌≤◌, length};
ghost use Rattle.std.proofs.lemmas.List.Edits.{sets};
ghost use Rattle.lists.specs.Tab.{tab, word};
ghost use Rattle.field.specs.Elements.{ElementRow};
ghost use Rattle.keccak_rnd.specs.Columns.{NUM-COLUMNS, MU};
ghost use Rattle.keccak_rnd.specs.Tuples.{NUM-TUPLES, CXZ-LEFT-TUPLES, DXZ-TUPLES, ROT-TUPLES, CHI-ANDS-TUPLES, round_tuple};
ghost use Rattle.residue.specs.Residue.{residues, Marked};
ghost use Rattle.keccak_rnd_terms.specs.Terms.{TermsOf};
ghost use Rattle.keccak_rnd_operands.specs.Lanes.{NUM-LANES, alu_tuple};

use bits::put_zeros;
use keccak_rnd::{CHI_ANDS_TUPLES, CXZ_LEFT_TUPLES, CXZ_TUPLES, DXZ_TUPLES, MU, ROT_TUPLES};
use keccak_rnd_operands::{
    CHI_ANDS_LANE, DXZ_LANE, NUM_LANES, Operands, Pair, lane_operands, left_pair, operand_lane,
    rot_lane,
};
use keccak_rnd_terms::{NUM_TERMS, put_terms};
use rc::rc_residue;
use residue::{bytes_residue, put_alu_lane, put_bytes_lane};

pub mod rc;

// The first three: the two of the bus between the tables, which need no match here, and the constant's.
fn put_first(row: &[u64], out: &mut [u64])
    requires { ElementRow NUM-COLUMNS row.now × (3 ≤ length out.old) }
    ensures { out.new ≡ sets out.old 0 (tab 3 (residues (round_tuple row.now))) }
{
    let constant = rc_residue(row);
    out[0] = 0;
    out[1] = 0;
    out[2] = constant;
}

// n lanes of the ByteAlu tuples, from lane `from` on, into `out` from `at`.
fn put_alu_lanes<'a>(
    row: &'a [u64],
    terms: &'a [u64],
    from: usize,
    n: usize,
    out: &mut [u64],
    at: usize,
)
    requires { (NUM-COLUMNS ≤ length row.now) × TermsOf row.now terms.now × (from + n ≤ NUM-LANES) × (at + 8 * n ≤ length out.old) }
    ensures { out.new ≡ sets out.old at (tab (8 * n) (residues (λ i. alu_tuple row.now (8 * from + i)))) }
{
    for l in 0..n {
        let Operands { op, a, b, c } = lane_operands(from + l);
        let first = operand_lane(row, terms, a);
        let second = operand_lane(row, terms, b);
        put_alu_lane(row[MU], op, first, second, row, c, out, at + 8 * l);
    }
}

// C's shifted halfwords are bytes, in padding rows too.
fn put_left(row: &[u64], out: &mut [u64])
    requires { (NUM-COLUMNS ≤ length row.now) × (DXZ-TUPLES ≤ length out.old) }
    ensures { out.new ≡ sets out.old CXZ-LEFT-TUPLES (tab 20 (residues (λ i. round_tuple row.now (CXZ-LEFT-TUPLES + i)))) }
{
    for i in 0..20 {
        let Pair { a, b } = left_pair(i);
        out[CXZ_LEFT_TUPLES + i] = bytes_residue(1, row[a], row[b]);
    }
}

// ρ's two parts are bytes, in padding rows too.
fn put_rot(row: &[u64], out: &mut [u64])
    requires { (NUM-COLUMNS ≤ length row.now) × (CHI-ANDS-TUPLES ≤ length out.old) }
    ensures { out.new ≡ sets out.old ROT-TUPLES (tab 200 (residues (λ i. round_tuple row.now (ROT-TUPLES + i)))) }
{
    for l in 0..25 {
        let Pair { a, b } = rot_lane(l);
        put_bytes_lane(row, a, b, out, ROT_TUPLES + 8 * l);
    }
}

// The residues of a row's tuples, its terms being computed.
fn put_residues<'a>(row: &'a [u64], terms: &'a [u64], out: &mut [u64])
    requires { ElementRow NUM-COLUMNS row.now × TermsOf row.now terms.now × (NUM-TUPLES ≤ length out.old) }
    ensures { out.new ≡ sets out.old 0 (tab NUM-TUPLES (residues (round_tuple row.now))) }
{
    put_first(row, out);
    put_alu_lanes(row, terms, 0, DXZ_LANE, out, CXZ_TUPLES);
    put_left(row, out);
    put_alu_lanes(
        row,
        terms,
        DXZ_LANE,
        CHI_ANDS_LANE - DXZ_LANE,
        out,
        DXZ_TUPLES,
    );
    put_rot(row, out);
    put_alu_lanes(
        row,
        terms,
        CHI_ANDS_LANE,
        NUM_LANES - CHI_ANDS_LANE,
        out,
        CHI_ANDS_TUPLES,
    );
}

// The residues of a padding row: only AreBytes tuples are sent, and no term is needed.
fn put_padding(row: &[u64], out: &mut [u64])
    requires { ElementRow NUM-COLUMNS row.now × (word row.now MU ≡ 0) × (NUM-TUPLES ≤ length out.old) }
    ensures { out.new ≡ sets out.old 0 (tab NUM-TUPLES (residues (round_tuple row.now))) }
{
    put_first(row, out);
    put_zeros(out, CXZ_TUPLES, 8 * DXZ_LANE);
    put_left(row, out);
    put_zeros(out, DXZ_TUPLES, 8 * (CHI_ANDS_LANE - DXZ_LANE));
    put_rot(row, out);
    put_zeros(out, CHI_ANDS_TUPLES, 8 * (NUM_LANES - CHI_ANDS_LANE));
}

// The words of a row's tuples, into the first 1,031 of `out`.
pub fn put_round_lookups(row: &[u64], out: &mut [u64])
    requires { ElementRow NUM-COLUMNS row.now × (NUM-TUPLES ≤ length out.old) }
    ensures { Marked NUM-TUPLES (round_tuple row.now) out.old out.new }
{
    if row[MU] == 0 {
        put_padding(row, out);
        return;
    }
    let mut terms = [0u64; NUM_TERMS];
    put_terms(row, &mut terms);
    put_residues(row, &terms, out);
}
