// tables/keccak_rnd.rs, bus_interactions: the 1,031 tuples of a round row by index.
#![tactic(auto)]

ghost use Rattle.std.specs.Prelude.{◌≡◌, List, ℕ, ◌+◌, ◌*◌, ◌<◌, ◌≤◌, length};
ghost use Rattle.std.proofs.lemmas.List.Edits.{sets};
ghost use Rattle.lists.specs.Tab.{tab, word};
ghost use Rattle.field.specs.Field.{p};
ghost use Rattle.field.specs.Elements.{ElementRow};
ghost use Rattle.answer.specs.Refusal.{overwrite};
ghost use Rattle.tuple.specs.Call.{interaction_of, tuple_answer_of, tuple_after};
ghost use Rattle.keccak.specs.Columns.{by_xyb};
ghost use Rattle.keccak.specs.Tuples.{keccak_values};
ghost use Rattle.keccak_rnd.specs.Columns.{NUM-COLUMNS};
ghost use Rattle.keccak_rnd.specs.Tuples.{NUM-TUPLES, CXZ-TUPLES, round_tuple, constant_tuple};
ghost use Rattle.keccak_rnd_tuples.specs.States.{lane_word, column_word, state_word};

use answer::Refusal;
use field::Fe;
use keccak_rnd::{
    CHI, CHI_ANDS_TUPLES, CXZ_LEFT_TUPLES, CXZ_TUPLES, DXZ_TUPLES, IOTA, MU, NUM_COLUMNS,
    NUM_TUPLES, RC, ROT_TUPLES, ROUND, START,
};
use keccak_rnd_byte_tuples::byte_tuple;
use lists::put_part;
use tuple::check::check_tuple;
use tuple::{Bus, BusInteraction, Side};

// The lengths of the tuples, bus by bus.
pub const KECCAK_VALUES: usize = 203;

pub const KECCAK_RC_VALUES: usize = 9;

pub const BYTE_ALU_VALUES: usize = 4;

pub const ARE_BYTES_VALUES: usize = 2;

// n lanes of one x, which stand 40 columns apart, the first from `from` on.
fn copy_lanes(row: &[u64], from: usize, n: usize, out: &mut [u64], at: usize)
    requires { (n ≤ 5) × (from + n * 40 ≤ length row.now + 32) × (at + n * 8 ≤ length out.old) }
    ensures { out.new ≡ sets out.old at (tab (n * 8) (lane_word row.now from)) }
{
    for y in 0..n {
        put_part(out, at + y * 8, row, from + y * 40, 8);
    }
}

// The lanes of each x from 1 to 4.
fn copy_columns(row: &[u64], base: usize, out: &mut [u64])
    requires { (base + 200 ≤ length row.now) × (203 ≤ length out.old) }
    ensures { out.new ≡ sets out.old 43 (tab 160 (λ k. by_xyb (column_word row.now base) (40 + k))) }
{
    for x in 0..4 {
        copy_lanes(row, base + 8 + x * 8, 5, out, 43 + x * 40);
    }
}

// The 200 bytes of a state, x outermost: lane (0, 0) stands from column `first` on, the others in the state at `base`.
fn put_state(row: &[u64], first: usize, base: usize, out: &mut [u64])
    requires { (first + 8 ≤ length row.now) × (base + 200 ≤ length row.now) × (203 ≤ length out.old) }
    ensures { out.new ≡ sets out.old 3 (tab 200 (by_xyb (state_word row.now first base))) }
{
    put_part(out, 3, row, first, 8);
    copy_lanes(row, base + 40, 4, out, 11);
    copy_columns(row, base, out);
}

// The values of a Keccak tuple: timestamp, round, state.
fn put_keccak(row: &[u64], round: u64, first: usize, base: usize, out: &mut [u64])
    requires { (2 ≤ length row.now) × (first + 8 ≤ length row.now) × (base + 200 ≤ length row.now) × (203 ≤ length out.old) }
    ensures { out.new ≡ overwrite (keccak_values (word row.now 0) (word row.now 1) round (state_word row.now first base)) out.old }
{
    out[0] = row[0];
    out[1] = row[1];
    out[2] = round;
    put_state(row, first, base, out);
}

// Tuple 0: START is received at ROUND.
fn received(row: &[u64], out: &mut [u64]) -> BusInteraction
    requires { (1480 ≤ length row.now) × (203 ≤ length out.old) }
    ensures answer { result ≡ interaction_of (round_tuple row.now 0) }
    ensures words { out.new ≡ overwrite (round_tuple row.now 0).values out.old }
{
    put_keccak(row, row[ROUND], START, START, out);
    BusInteraction {
        bus: Bus::Keccak,
        side: Side::Receiver,
        length: KECCAK_VALUES,
        multiplicity: row[MU],
    }
}

// Tuple 1: the state after the round, in which ι changed lane (0, 0), is sent at ROUND + 1.
fn sent(row: &[u64], out: &mut [u64]) -> BusInteraction
    requires { (1480 ≤ length row.now) × (word row.now 2 < p) × (203 ≤ length out.old) }
    ensures answer { result ≡ interaction_of (round_tuple row.now 1) }
    ensures words { out.new ≡ overwrite (round_tuple row.now 1).values out.old }
{
    let next = Fe { value: row[ROUND] }.add(Fe::ONE);
    put_keccak(row, next.value, IOTA, CHI, out);
    BusInteraction {
        bus: Bus::Keccak,
        side: Side::Sender,
        length: KECCAK_VALUES,
        multiplicity: row[MU],
    }
}

// Tuple 2: ROUND and its constant.
fn constant(row: &[u64], out: &mut [u64]) -> BusInteraction
    requires { (1480 ≤ length row.now) × (9 ≤ length out.old) }
    ensures answer { result ≡ interaction_of (constant_tuple row.now) }
    ensures words { out.new ≡ overwrite (constant_tuple row.now).values out.old }
{
    out[0] = row[ROUND];
    put_part(out, 1, row, RC, 8);
    BusInteraction {
        bus: Bus::KeccakRc,
        side: Side::Sender,
        length: KECCAK_RC_VALUES,
        multiplicity: row[MU],
    }
}

// How many values a tuple from 3 on has.
fn byte_length(index: usize) -> usize
    requires { CXZ-TUPLES ≤ index }
    ensures { (row : List ℕ) → result ≡ length (round_tuple row index).values }
{
    if index < CXZ_LEFT_TUPLES {
        return BYTE_ALU_VALUES;
    }
    if index < DXZ_TUPLES {
        return ARE_BYTES_VALUES;
    }
    if index < ROT_TUPLES {
        return BYTE_ALU_VALUES;
    }
    if index < CHI_ANDS_TUPLES {
        ARE_BYTES_VALUES
    } else {
        BYTE_ALU_VALUES
    }
}

// How many values tuple `index` has.
fn tuple_length(index: usize) -> usize
    ensures { (row : List ℕ) → result ≡ length (round_tuple row index).values }
{
    if index < 2 {
        return KECCAK_VALUES;
    }
    if index == 2 {
        return KECCAK_RC_VALUES;
    }
    byte_length(index)
}

// Tuple `index` of a row that the checks passed.
pub fn row_tuple(row: &[u64], index: usize, out: &mut [u64]) -> BusInteraction
    requires { ElementRow NUM-COLUMNS row.now × (index < NUM-TUPLES) × (length (round_tuple row.now index).values ≤ length out.old) }
    ensures answer { result ≡ interaction_of (round_tuple row.now index) }
    ensures words { out.new ≡ overwrite (round_tuple row.now index).values out.old }
{
    if CXZ_TUPLES <= index {
        return byte_tuple(row, index, out);
    }
    if index == 0 {
        return received(row, out);
    }
    if index == 1 {
        return sent(row, out);
    }
    constant(row, out)
}

// Tuple `index` of a round row: its values go into `out`.
pub fn bus_interaction(
    row: &[u64],
    index: usize,
    out: &mut [u64],
) -> Result<BusInteraction, Refusal>
    ensures answer { result ≡ tuple_answer_of NUM-COLUMNS NUM-TUPLES round_tuple row.now index out.old }
    ensures words { out.new ≡ tuple_after NUM-COLUMNS NUM-TUPLES round_tuple row.now index out.old }
{
    let length = tuple_length(index);
    let room = out.len();
    check_tuple(NUM_COLUMNS, NUM_TUPLES, row, index, length, room)?;
    Ok(row_tuple(row, index, out))
}
