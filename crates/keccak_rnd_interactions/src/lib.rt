// tables/keccak_rnd.rs, bus_interactions: the 1,031 tuples of a round row, all at once.
#![tactic(auto)]

ghost use Rattle.std.specs.Prelude.{◌≡◌, ◌+◌, ◌*◌, ◌<◌, ◌≤◌, length};
ghost use Rattle.std.proofs.lemmas.List.Edits.{sets};
ghost use Rattle.field.specs.Elements.{ElementRow};
ghost use Rattle.tuple.specs.Words.{tuple_words, tuples_words};
ghost use Rattle.tuple.specs.Values.{values_answer};
ghost use Rattle.keccak_rnd.specs.Columns.{NUM-COLUMNS};
ghost use Rattle.keccak_rnd.specs.Tuples.{NUM-TUPLES, CXZ-LEFT-TUPLES, ROT-TUPLES, round_tuple};
ghost use Rattle.keccak_rnd_terms.specs.Terms.{TermsOf};
ghost use Rattle.keccak_rnd_operands.specs.Lanes.{NUM-LANES, alu_tuple};
ghost use Rattle.keccak_rnd_interactions.specs.Words.{NUM-WORDS, CXZ-WORDS, round_tuples_after};

use answer::Refusal;
use byte_tuples::words::{put_alu_lane, put_bytes, put_bytes_lane};
use keccak_rnd::{MU, NUM_COLUMNS};
use keccak_rnd_operands::{
    CHI_ANDS_LANE, DXZ_LANE, NUM_LANES, Operands, Pair, lane_operands, left_pair, operand_lane,
    rot_lane,
};
use keccak_rnd_terms::{NUM_TERMS, put_terms};
use keccak_rnd_tuples::row_tuple;
use tuple::check::check_values;
use tuple::header::put_header;

// Four words for each tuple, and its values.
pub const NUM_WORDS: usize = 8211;

// Where those of a run of tuples on one bus begin.
const CXZ_WORDS: usize = 427;

const CXZ_LEFT_WORDS: usize = 1707;

const DXZ_WORDS: usize = 1827;

const ROT_WORDS: usize = 3747;

const CHI_ANDS_WORDS: usize = 4947;

// Tuple `index`, from `at`; where the next one goes.
fn put_tuple(row: &[u64], index: usize, out: &mut [u64], at: usize) -> usize
    requires { ElementRow NUM-COLUMNS row.now × (index < NUM-TUPLES) × (at + length (tuple_words (round_tuple row.now index)) ≤ length out.old) }
    ensures next { result ≡ at + length (tuple_words (round_tuple row.now index)) }
    ensures words { out.new ≡ sets out.old at (tuple_words (round_tuple row.now index)) }
{
    let from = at + 4;
    let tuple = row_tuple(row, index, &mut out[from..]);
    put_header(out, at, tuple);
    from + tuple.length
}

// The first three, from the front of `out`: the two of the bus between the tables, and the constant's.
fn put_first(row: &[u64], out: &mut [u64])
    requires { ElementRow NUM-COLUMNS row.now × (CXZ-WORDS ≤ length out.old) }
    ensures { out.new ≡ sets out.old 0 (tuples_words (round_tuple row.now) 3) }
{
    let mut at: usize = 0;
    for i in 0..3 {
        at = put_tuple(row, i, out, at);
    }
}

// n lanes of the ByteAlu tuples, from lane `from` on, into `out` from `at`.
fn put_alu_lanes<'a>(
    row: &'a [u64],
    terms: &'a [u64],
    from: usize,
    n: usize,
    out: &mut [u64],
    at: usize,
)
    requires { (NUM-COLUMNS ≤ length row.now) × TermsOf row.now terms.now × (from + n ≤ NUM-LANES) × (at + 64 * n ≤ length out.old) }
    ensures { out.new ≡ sets out.old at (tuples_words (λ i. alu_tuple row.now (8 * from + i)) (8 * n)) }
{
    for l in 0..n {
        let Operands { op, a, b, c } = lane_operands(from + l);
        let first = operand_lane(row, terms, a);
        let second = operand_lane(row, terms, b);
        put_alu_lane(row[MU], op, first, second, row, c, out, at + 64 * l);
    }
}

// C's shifted halfwords are bytes.
fn put_left(row: &[u64], out: &mut [u64], at: usize)
    requires { (NUM-COLUMNS ≤ length row.now) × (at + 120 ≤ length out.old) }
    ensures { out.new ≡ sets out.old at (tuples_words (λ i. round_tuple row.now (CXZ-LEFT-TUPLES + i)) 20) }
{
    for i in 0..20 {
        let Pair { a, b } = left_pair(i);
        put_bytes(out, at + 6 * i, row[a], row[b]);
    }
}

// ρ's two parts are bytes.
fn put_rot(row: &[u64], out: &mut [u64], at: usize)
    requires { (NUM-COLUMNS ≤ length row.now) × (at + 1200 ≤ length out.old) }
    ensures { out.new ≡ sets out.old at (tuples_words (λ i. round_tuple row.now (ROT-TUPLES + i)) 200) }
{
    for l in 0..25 {
        let Pair { a, b } = rot_lane(l);
        put_bytes_lane(row, a, b, out, at + 48 * l);
    }
}

// The tuples of a row, its terms being computed.
fn put_runs<'a>(row: &'a [u64], terms: &'a [u64], out: &mut [u64])
    requires { ElementRow NUM-COLUMNS row.now × TermsOf row.now terms.now × (NUM-WORDS ≤ length out.old) }
    ensures { out.new ≡ sets out.old 0 (tuples_words (round_tuple row.now) NUM-TUPLES) }
{
    put_first(row, out);
    put_alu_lanes(row, terms, 0, DXZ_LANE, out, CXZ_WORDS);
    put_left(row, out, CXZ_LEFT_WORDS);
    put_alu_lanes(
        row,
        terms,
        DXZ_LANE,
        CHI_ANDS_LANE - DXZ_LANE,
        out,
        DXZ_WORDS,
    );
    put_rot(row, out, ROT_WORDS);
    put_alu_lanes(
        row,
        terms,
        CHI_ANDS_LANE,
        NUM_LANES - CHI_ANDS_LANE,
        out,
        CHI_ANDS_WORDS,
    );
}

// The tuples of a row that the checks passed, from the front of `out`.
fn put_tuples(row: &[u64], out: &mut [u64])
    requires { ElementRow NUM-COLUMNS row.now × (NUM-WORDS ≤ length out.old) }
    ensures { out.new ≡ sets out.old 0 (tuples_words (round_tuple row.now) NUM-TUPLES) }
{
    let mut terms = [0u64; NUM_TERMS];
    put_terms(row, &mut terms);
    put_runs(row, &terms, out);
}

// The tuples of a round row, whoever filled it: its columns are checked once.
pub fn bus_interactions(row: &[u64], out: &mut [u64]) -> Result<(), Refusal>
    ensures answer { result ≡ values_answer NUM-COLUMNS NUM-WORDS row.now out.old }
    ensures words { out.new ≡ round_tuples_after row.now out.old }
{
    let room = out.len();
    check_values(NUM_COLUMNS, NUM_WORDS, row, room)?;
    put_tuples(row, out);
    Ok(())
}
