// tables/keccak.rs, bus_interactions: the 84 tuples of a core row, by index.
#![tactic(auto)]

ghost use Rattle.std.specs.Prelude.{◌≡◌, List, ℕ, ◌<◌, ◌≤◌, length};
ghost use Rattle.field.specs.Elements.{ElementRow};
ghost use Rattle.answer.specs.Refusal.{overwrite};
ghost use Rattle.tuple.specs.Call.{interaction_of};
ghost use Rattle.keccak.specs.Columns.{NUM-COLUMNS};
ghost use Rattle.keccak.specs.Tuples.{NUM-TUPLES, ecall_tuple, core_tuple};
ghost use Rattle.keccak.specs.TupleCalls.{core_tuple_answer, core_tuple_after};

use address::{addr_bytes_tuple, align_tuple, pointer_tuple};
use answer::{Refusal, check_rounds};
use keccak::{
    ADDR_TUPLES, ALIGN_TUPLE, LANE_TUPLES, MU, NUM_COLUMNS, NUM_TUPLES, POINTER_TUPLES,
    TIMESTAMP_0, TIMESTAMP_1,
};
use keccak_state_tuples::memw::{addr_memw, lane_memw};
use keccak_state_tuples::{keccak_received, keccak_sent};
use tuple::check::check_tuple;
use tuple::{Bus, BusInteraction, Side};

pub mod address;

// 0: the call itself, received.
fn ecall_tuple(row: &[u64], syscall: u64, out: &mut [u64]) -> BusInteraction
    requires { (NUM-COLUMNS ≤ length row.now) × (4 ≤ length out.old) }
    ensures answer { result ≡ interaction_of (ecall_tuple syscall row.now) }
    ensures words { out.new ≡ overwrite (ecall_tuple syscall row.now).values out.old }
{
    out[0] = row[TIMESTAMP_0];
    out[1] = row[TIMESTAMP_1];
    out[2] = syscall % 4294967296;
    out[3] = syscall / 4294967296;
    BusInteraction {
        bus: Bus::Ecall,
        side: Side::Receiver,
        length: 4,
        multiplicity: row[MU],
    }
}

// 0 to 3.
fn head_tuple(nr: usize, row: &[u64], index: usize, syscall: u64, out: &mut [u64]) -> BusInteraction
    requires { ElementRow NUM-COLUMNS row.now × (index < 4) × (length (core_tuple nr syscall row.now index).values ≤ length out.old) }
    ensures answer { result ≡ interaction_of (core_tuple nr syscall row.now index) }
    ensures words { out.new ≡ overwrite (core_tuple nr syscall row.now index).values out.old }
{
    if index == 0 {
        return ecall_tuple(row, syscall, out);
    }
    if index == 1 {
        return addr_memw(row, out);
    }
    if index == 2 {
        return keccak_sent(nr, row, out);
    }
    keccak_received(row, out)
}

// 54 to 83.
fn tail_tuple(nr: usize, row: &[u64], index: usize, syscall: u64, out: &mut [u64]) -> BusInteraction
    requires { ElementRow NUM-COLUMNS row.now × (54 ≤ index) × (index < NUM-TUPLES) × (length (core_tuple nr syscall row.now index).values ≤ length out.old) }
    ensures answer { result ≡ interaction_of (core_tuple nr syscall row.now index) }
    ensures words { out.new ≡ overwrite (core_tuple nr syscall row.now index).values out.old }
{
    if index == ALIGN_TUPLE {
        return align_tuple(row, out);
    }
    if index < LANE_TUPLES {
        return addr_bytes_tuple(row, index - ADDR_TUPLES, out);
    }
    lane_memw(row, index - LANE_TUPLES, out)
}

// Tuple `index` of a row that the checks passed.
pub fn row_tuple(
    nr: usize,
    row: &[u64],
    index: usize,
    syscall: u64,
    out: &mut [u64],
) -> BusInteraction
    requires { ElementRow NUM-COLUMNS row.now × (index < NUM-TUPLES) × (length (core_tuple nr syscall row.now index).values ≤ length out.old) }
    ensures answer { result ≡ interaction_of (core_tuple nr syscall row.now index) }
    ensures words { out.new ≡ overwrite (core_tuple nr syscall row.now index).values out.old }
{
    if index < POINTER_TUPLES {
        return head_tuple(nr, row, index, syscall, out);
    }
    if index < ALIGN_TUPLE {
        let k = index - POINTER_TUPLES;
        return pointer_tuple(row, k / 2, k % 2, out);
    }
    tail_tuple(nr, row, index, syscall, out)
}

// How many values tuples 0 to 3 have.
fn head_length(index: usize) -> usize
    requires { index < 4 }
    ensures { (nr syscall : ℕ) (row : List ℕ) → result ≡ length (core_tuple nr syscall row index).values }
{
    if index == 0 {
        return 4;
    }
    if index == 1 { 24 } else { 203 }
}

// How many values tuple `index` has.
fn tuple_length(index: usize) -> usize
    ensures { (nr syscall : ℕ) (row : List ℕ) → result ≡ length (core_tuple nr syscall row index).values }
{
    if index < POINTER_TUPLES {
        return head_length(index);
    }
    if index < ALIGN_TUPLE {
        return 2 - (index - POINTER_TUPLES) % 2;
    }
    if index == ALIGN_TUPLE {
        return 4;
    }
    if index < LANE_TUPLES { 2 } else { 24 }
}

// Tuple `index` of a core row, of nr rounds: its values go into `out`. The syscall number is handed over.
pub fn bus_interaction(
    nr: u64,
    row: &[u64],
    index: usize,
    syscall: u64,
    out: &mut [u64],
) -> Result<BusInteraction, Refusal>
    ensures answer { result ≡ core_tuple_answer nr syscall row.now index out.old }
    ensures words { out.new ≡ core_tuple_after nr syscall row.now index out.old }
{
    check_rounds(nr)?;
    let length = tuple_length(index);
    let room = out.len();
    check_tuple(NUM_COLUMNS, NUM_TUPLES, row, index, length, room)?;
    Ok(row_tuple(nr as usize, row, index, syscall, out))
}
