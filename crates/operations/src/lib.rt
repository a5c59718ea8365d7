// What the writers of both tables read of a flat list of operations: an operation, the checks of the list, the height
// of a table.
#![tactic(auto)]

ghost use Rattle.std.specs.Prelude.{◌≡◌, ◌+◌, ◌*◌, ◌≤◌, length, get_or};
ghost use Rattle.lists.specs.Tab.{tab};
ghost use Rattle.keccak.specs.Row.{OP-WORDS, LAST-SEGMENT, op_at};
ghost use Rattle.keccak.specs.Refusals.{segment_at};

pub use checks::check_operations;
pub use heights::table_height;
use keccak::{KeccakOperation, OP_WORDS, SEGMENT_WORD};

pub mod checks;
pub mod heights;
pub mod words;

// 25 words of a list, from `at`.
pub fn lanes_at(ops: &[u64], at: usize) -> [u64; 25]
    requires { at + 25 ≤ length ops.now }
    ensures { result ≡ tab 25 (λ k. get_or ops.now (at + k) 0) }
{
    let mut lanes = [0u64; 25];
    for k in 0..25 {
        lanes[k] = ops[at + k];
    }
    lanes
}

// Operation i of a flat list.
pub fn operation_at(ops: &[u64], i: usize) -> KeccakOperation
    requires { (OP-WORDS * i + OP-WORDS ≤ length ops.now) × (segment_at ops.now i ≤ LAST-SEGMENT) }
    ensures { result ≡ op_at ops.now i }
{
    let at = OP_WORDS * i;
    let input = lanes_at(ops, at + 2);
    let output = lanes_at(ops, at + 27);
    KeccakOperation {
        timestamp: ops[at],
        state_addr: ops[at + 1],
        input,
        output,
        segment: ops[at + SEGMENT_WORD] as u32,
    }
}
