// The operations of a message's blocks, one after the other: written, and compared.
ghost use Rattle.std.specs.Prelude.{◌≡◌, ◌+◌, ◌-◌, ◌*◌, ◌/◌, ◌^◌, ◌≤◌, ◌<◌, length};
ghost use Rattle.std.proofs.lemmas.List.Edits.{sets};
ghost use Rattle.lists.specs.Select.{words_test};
ghost use Rattle.sha3.specs.Sha3.{blocks};
ghost use Rattle.keccak.specs.Row.{OP-WORDS};
ghost use Rattle.message.specs.Message.{operation_from, message_list};

use keccak::{KeccakOperation, OP_WORDS};
use operations::words::{put_operation, same_operation};
use permutation::State;
use sha3::{RATE, add_block};

// How many blocks the padded message has.
pub fn block_count(message: &[u8]) -> usize
    ensures { result ≡ blocks message.now }
{
    message.len() / RATE + 1
}

// The operation of block i, from the state before it.
fn block_operation(
    state: State,
    message: &[u8],
    address: u64,
    timestamp: u64,
    i: usize,
) -> KeccakOperation
    requires { (i ≤ length message.now / 136) × (timestamp + i < 2 ^ 64) }
    ensures { result ≡ operation_from message.now address timestamp i state.lanes }
{
    let before = add_block(state, message, i);
    let after = before.keccak_f();
    let input = before.lanes;
    let output = after.lanes;
    KeccakOperation {
        timestamp: timestamp + i as u64,
        state_addr: address,
        input,
        output,
        segment: 0,
    }
}

// The state after an operation.
fn state_after(op: KeccakOperation) -> State
    ensures { result.lanes ≡ op.output }
{
    let lanes = op.output;
    State { lanes }
}

// The list of a message, from the front of `ops` on.
pub fn put_list(message: &[u8], address: u64, timestamp: u64, ops: &mut [u64])
    requires { (blocks message.now * OP-WORDS ≤ length ops.old) × (timestamp + (blocks message.now - 1) < 2 ^ 64) }
    ensures { ops.new ≡ sets ops.old 0 (message_list message.now address timestamp) }
{
    let n = block_count(message);
    let mut state = State { lanes: [0u64; 25] };
    for i in 0..n {
        let op = block_operation(state, message, address, timestamp, i);
        put_operation(ops, i * OP_WORDS, op);
        state = state_after(op);
    }
}

// Whether a list of as many operations as the message has blocks is the message's, at this address and from this timestamp on.
pub fn is_list(message: &[u8], address: u64, timestamp: u64, ops: &[u64]) -> bool
    requires { (length ops.now ≡ blocks message.now * OP-WORDS) × (timestamp + (blocks message.now - 1) < 2 ^ 64) }
    ensures { result ≡ words_test ops.now (message_list message.now address timestamp) }
{
    let n = block_count(message);
    let mut state = State { lanes: [0u64; 25] };
    for i in 0..n {
        let op = block_operation(state, message, address, timestamp, i);
        if !same_operation(ops, i * OP_WORDS, op) {
            return false;
        }
        state = state_after(op);
    }
    true
}
