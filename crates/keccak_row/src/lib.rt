// tables/keccak.rs: the row of an operation, and a padding row.
#![tactic(auto)]

ghost use Rattle.std.specs.Prelude.{◌≡◌, ◌+◌, ◌^◌, ◌<◌, ◌≤◌, length};
ghost use Rattle.std.proofs.lemmas.List.Edits.{sets};
ghost use Rattle.lists.specs.Tab.{tab};
ghost use Rattle.answer.specs.Refusal.{answer_of};
ghost use Rattle.keccak.specs.Columns.{NUM-COLUMNS};
ghost use Rattle.keccak.specs.Row.{pointer_limb, core_row, core_pad};
ghost use Rattle.keccak.specs.Refusals.{core_row_refusal};
ghost use Rattle.keccak.specs.Calls.{core_row_after};

use answer::{MAX_OPS, Refusal};
use bits::{put_dword_bl, put_dword_whh, put_dword_wl, put_lanes, put_zeros};
use keccak::{
    ADDR, INPUT_STATE, KeccakOperation, MU, NUM_COLUMNS, OP_WORDS, OUTPUT_STATE, STATE_PTR,
};
use operations::{check_operations, operation_at};

// The pointers of the 25 lanes from an address.
fn put_pointers(row: &mut [u64], at: usize, addr: u64)
    requires { (at + 75 ≤ length row.old) × (addr + 192 < 2 ^ 64) }
    ensures { row.new ≡ sets row.old at (tab 75 (pointer_limb addr)) }
{
    for i in 0..25 {
        put_dword_whh(row, at + 3 * i, addr + 8 * (i as u64));
    }
}

// The row of an operation, from `at`: its six groups.
pub fn put_core_row(row: &mut [u64], at: usize, op: KeccakOperation)
    requires { (at + NUM-COLUMNS ≤ length row.old) × (op.state_addr + 192 < 2 ^ 64) }
    ensures { row.new ≡ sets row.old at (core_row op) }
{
    let addr = op.state_addr;
    let input = op.input;
    let output = op.output;
    put_dword_wl(row, at, op.timestamp);
    put_dword_bl(row, at + ADDR, addr);
    put_lanes(row, at + INPUT_STATE, input);
    put_lanes(row, at + OUTPUT_STATE, output);
    put_pointers(row, at + STATE_PTR, addr);
    row[at + MU] = 1;
}

// A padding row, from `at`.
pub fn put_pad_row(row: &mut [u64], at: usize)
    requires { at + NUM-COLUMNS ≤ length row.old }
    ensures { row.new ≡ sets row.old at core_pad }
{
    put_zeros(row, at, STATE_PTR);
    put_pointers(row, at + STATE_PTR, 0);
    row[at + MU] = 0;
}

// The row of operation `index` of a list.
pub fn keccak_row(ops: &[u64], index: usize, row: &mut [u64]) -> Result<(), Refusal>
    ensures answer { result ≡ answer_of (core_row_refusal (length row.old) ops.now index) }
    ensures words { row.new ≡ core_row_after ops.now index row.old }
{
    let n = ops.len() / OP_WORDS;
    if n as u64 > MAX_OPS {
        return Err(Refusal::PastEnd(MAX_OPS + 1));
    }
    if index >= n {
        return Err(Refusal::PastEnd(n as u64));
    }
    let room = row.len();
    check_operations(ops, room, NUM_COLUMNS)?;
    let op = operation_at(ops, index);
    put_core_row(row, 0, op);
    Ok(())
}
