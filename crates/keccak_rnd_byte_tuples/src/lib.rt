// tables/keccak_rnd.rs, bus_interactions: the tuples of a round row from 3 on by index, 808 on the ByteAlu bus and 220 on
// the AreBytes bus.
#![tactic(auto)]

ghost use Rattle.std.specs.Prelude.{◌≡◌, ◌+◌, ◌*◌, ◌<◌, ◌≤◌, length};
ghost use Rattle.field.specs.Elements.{ElementRow};
ghost use Rattle.answer.specs.Refusal.{overwrite};
ghost use Rattle.tuple.specs.Call.{interaction_of};
ghost use Rattle.keccak_rnd.specs.Columns.{NUM-COLUMNS};
ghost use Rattle.keccak_rnd.specs.Tuples.{NUM-TUPLES, CXZ-TUPLES, CXZ-LEFT-TUPLES, ROT-TUPLES, round_tuple};
ghost use Rattle.keccak_rnd_operands.specs.Lanes.{NUM-LANES, alu_tuple};

use byte_tuples::op_number;
use byte_tuples::send::{send_alu, send_bytes};
use keccak_rnd::{CHI_ANDS_TUPLES, CXZ_LEFT_TUPLES, CXZ_TUPLES, DXZ_TUPLES, MU, ROT_TUPLES};
use keccak_rnd_operands::{
    CHI_ANDS_LANE, DXZ_LANE, Operands, Pair, lane_operands, left_pair, operand_byte, rot_lane,
};
use tuple::BusInteraction;

// Tuple i of the ByteAlu bus.
fn alu_tuple(row: &[u64], i: usize, out: &mut [u64]) -> BusInteraction
    requires { ElementRow NUM-COLUMNS row.now × (i < 8 * NUM-LANES) × (4 ≤ length out.old) }
    ensures answer { result ≡ interaction_of (alu_tuple row.now i) }
    ensures words { out.new ≡ overwrite (alu_tuple row.now i).values out.old }
{
    let Operands { op, a, b, c } = lane_operands(i / 8);
    let z = i % 8;
    let number = op_number(op);
    let first = operand_byte(row, a, z);
    let second = operand_byte(row, b, z);
    send_alu(row[MU], number, first, second, row[c + z], out)
}

// Two bytes of C's shifted halfwords.
fn left_tuple(row: &[u64], i: usize, out: &mut [u64]) -> BusInteraction
    requires { (NUM-COLUMNS ≤ length row.now) × (i < 20) × (2 ≤ length out.old) }
    ensures answer { result ≡ interaction_of (round_tuple row.now (CXZ-LEFT-TUPLES + i)) }
    ensures words { out.new ≡ overwrite (round_tuple row.now (CXZ-LEFT-TUPLES + i)).values out.old }
{
    let Pair { a, b } = left_pair(i);
    send_bytes(row[a], row[b], out)
}

// A byte of each of ρ's parts.
fn rot_tuple(row: &[u64], i: usize, out: &mut [u64]) -> BusInteraction
    requires { (NUM-COLUMNS ≤ length row.now) × (i < 200) × (2 ≤ length out.old) }
    ensures answer { result ≡ interaction_of (round_tuple row.now (ROT-TUPLES + i)) }
    ensures words { out.new ≡ overwrite (round_tuple row.now (ROT-TUPLES + i)).values out.old }
{
    let Pair { a, b } = rot_lane(i / 8);
    let z = i % 8;
    send_bytes(row[a + z], row[b + z], out)
}

// Tuple `index`, from 3 on, of a row that the checks passed.
pub fn byte_tuple(row: &[u64], index: usize, out: &mut [u64]) -> BusInteraction
    requires { ElementRow NUM-COLUMNS row.now × (CXZ-TUPLES ≤ index) × (index < NUM-TUPLES) × (length (round_tuple row.now index).values ≤ length out.old) }
    ensures answer { result ≡ interaction_of (round_tuple row.now index) }
    ensures words { out.new ≡ overwrite (round_tuple row.now index).values out.old }
{
    if index < CXZ_LEFT_TUPLES {
        return alu_tuple(row, index - CXZ_TUPLES, out);
    }
    if index < DXZ_TUPLES {
        return left_tuple(row, index - CXZ_LEFT_TUPLES, out);
    }
    if index < ROT_TUPLES {
        return alu_tuple(row, index - DXZ_TUPLES + 8 * DXZ_LANE, out);
    }
    if index < CHI_ANDS_TUPLES {
        return rot_tuple(row, index - ROT_TUPLES, out);
    }
    alu_tuple(row, index - CHI_ANDS_TUPLES + 8 * CHI_ANDS_LANE, out)
}
