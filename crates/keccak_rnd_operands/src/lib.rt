// tables/keccak_rnd.rs, bus_interactions: which words each ByteAlu and AreBytes tuple of a round row is made of. The
// ByteAlu tuples are 101 lanes of eight: 5 of stage 0 of the column parities, 15 of stages 1 to 3, 5 of D, 25 of θ, 25 of
// χ's ands, 25 of χ and 1 of ι; the AreBytes tuples are 20 pairs of C's shifted halfwords and 25 lanes of ρ's parts.
#![tactic(auto)]

ghost use Rattle.std.specs.Prelude.{◌≡◌, ◌+◌, ◌≤◌, ◌<◌, length};
ghost use Rattle.lists.specs.Tab.{tab, word};
ghost use Rattle.field.specs.Elements.{ElementRow};
ghost use Rattle.keccak_rnd.specs.Columns.{NUM-COLUMNS};
ghost use Rattle.keccak_rnd_terms.specs.Terms.{TermsOf};
ghost use Rattle.keccak_rnd_operands.specs.Lanes.{THETA-LANE, NUM-LANES, Within, operand_byte, OperandsOf, LeftOf, RotOf};

use byte_tuples::Op;
use keccak_rnd::{CHI, CHI_ANDS, CXZ, CXZ_LEFT, DXZ, IOTA, RC, ROT_LEFT, ROT_RIGHT, START, THETA};
use keccak_rnd_terms::{NOT_PI, PI, term_at};

// The first lane of each group.
const STAGE_LANE: usize = 5;

pub const DXZ_LANE: usize = 20;

const THETA_LANE: usize = 25;

pub const CHI_ANDS_LANE: usize = 50;

const CHI_LANE: usize = 75;

const IOTA_LANE: usize = 100;

pub const NUM_LANES: usize = 101;

// The eight bytes of an operand: those from a column on, or from a term on.
#[derive(Clone, Copy)]
pub enum Operand {
    Column(usize),
    Term(usize),
}

// op(a, b) = c for each of eight bytes; c is the column of the first.
#[derive(Clone, Copy)]
pub struct Operands {
    pub op: Op,
    pub a: Operand,
    pub b: Operand,
    pub c: usize,
}

// The columns of two bytes.
#[derive(Clone, Copy)]
pub struct Pair {
    pub a: usize,
    pub b: usize,
}

// The lanes before θ's: the column parities in their stages, and D of C of the column before and C rotated of the one after.
fn parity_operands(l: usize) -> Operands
    requires { l < THETA-LANE }
    ensures { OperandsOf l result }
{
    if l < STAGE_LANE {
        return Operands {
            op: Op::Xor,
            a: Operand::Column(START + l * 8),
            b: Operand::Column(START + (l + 5) * 8),
            c: CXZ + l * 4 * 8,
        };
    }
    if l < DXZ_LANE {
        let x = (l - STAGE_LANE) / 3;
        let k = (l - STAGE_LANE) % 3;
        return Operands {
            op: Op::Xor,
            a: Operand::Column(CXZ + (x * 4 + k) * 8),
            b: Operand::Column(START + (x + 5 * (k + 2)) * 8),
            c: CXZ + (x * 4 + (k + 1)) * 8,
        };
    }
    let x = l - DXZ_LANE;
    Operands {
        op: Op::Xor,
        a: Operand::Column(CXZ + ((x + 4) % 5 * 4 + 3) * 8),
        b: Operand::Term(8 * ((x + 1) % 5)),
        c: DXZ + x * 8,
    }
}

// The others: θ adds D[x] to lane (x, y); χ's ands are not (x + 1, y), and (x + 2, y); ι adds the constant to lane (0, 0).
fn state_operands(l: usize) -> Operands
    requires { (THETA-LANE ≤ l) × (l < NUM-LANES) }
    ensures { OperandsOf l result }
{
    if l == IOTA_LANE {
        return Operands {
            op: Op::Xor,
            a: Operand::Column(CHI),
            b: Operand::Column(RC),
            c: IOTA,
        };
    }
    let m = l % 25;
    let x = m / 5;
    let y = m % 5;
    let lane = (x + 5 * y) * 8;
    if l < CHI_ANDS_LANE {
        return Operands {
            op: Op::Xor,
            a: Operand::Column(START + lane),
            b: Operand::Column(DXZ + x * 8),
            c: THETA + lane,
        };
    }
    if l < CHI_LANE {
        return Operands {
            op: Op::And,
            a: Operand::Term(NOT_PI + 8 * (5 * ((x + 1) % 5) + y)),
            b: Operand::Term(PI + 8 * (5 * ((x + 2) % 5) + y)),
            c: CHI_ANDS + lane,
        };
    }
    Operands {
        op: Op::Xor,
        a: Operand::Term(PI + 8 * (5 * x + y)),
        b: Operand::Column(CHI_ANDS + lane),
        c: CHI + lane,
    }
}

// The operands of lane l of the ByteAlu tuples.
pub fn lane_operands(l: usize) -> Operands
    requires { l < NUM-LANES }
    ensures { OperandsOf l result }
{
    if l < THETA_LANE {
        return parity_operands(l);
    }
    state_operands(l)
}

// Pair i of C's shifted halfwords.
pub fn left_pair(i: usize) -> Pair
    requires { i < 20 }
    ensures { LeftOf i result }
{
    let a = CXZ_LEFT + 2 * i;
    Pair { a, b: a + 1 }
}

// Lane l of ρ's low parts and carries, eight pairs from these columns on.
pub fn rot_lane(l: usize) -> Pair
    requires { l < 25 }
    ensures { RotOf l result }
{
    let lane = (l / 5 + 5 * (l % 5)) * 8;
    Pair {
        a: ROT_LEFT + lane,
        b: ROT_RIGHT + lane,
    }
}

// Byte z of an operand.
pub fn operand_byte(row: &[u64], operand: Operand, z: usize) -> u64
    requires { ElementRow NUM-COLUMNS row.now × Within operand × (z < 8) }
    ensures { result ≡ operand_byte row.now operand z }
{
    match operand {
        Operand::Column(k) => row[k + z],
        Operand::Term(k) => term_at(row, k + z),
    }
}

// Eight words from `start` on.
fn lane_from(words: &[u64], start: usize) -> &[u64]
    requires { start + 8 ≤ length words.now }
    ensures { result.now ≡ tab 8 (λ z. word words.now (start + z)) }
{
    let end = start + 8;
    &words[start..end]
}

// The eight bytes of an operand: a part of the row, or of the terms that were computed of it.
pub fn operand_lane<'a>(row: &'a [u64], terms: &'a [u64], operand: Operand) -> &'a [u64]
    requires { (NUM-COLUMNS ≤ length row.now) × TermsOf row.now terms.now × Within operand }
    ensures { result.now ≡ tab 8 (operand_byte row.now operand) }
{
    match operand {
        Operand::Column(k) => lane_from(row, k),
        Operand::Term(k) => lane_from(terms, k),
    }
}
