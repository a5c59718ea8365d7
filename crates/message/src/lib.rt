// A message as the operations that hash it with SHA3-256, and a list of operations judged against a message.
#![tactic(auto)]

ghost use Rattle.std.specs.Prelude.{◌≡◌, length};
ghost use Rattle.sha3.specs.Sha3.{blocks};
ghost use Rattle.answer.specs.Refusal.{number_of};
ghost use Rattle.message.specs.Message.{message_refusal, message_after, judged_refusal, judged_of, is_message};

use answer::Refusal;
use blocks::{block_count, is_list, put_list};
use checks::{check_list, check_message, is_late};
use keccak::OP_WORDS;

pub mod blocks;
pub mod checks;

// The operations that hash a message, all at one address, from a first timestamp on: how many there are.
pub fn message_operations(
    message: &[u8],
    address: u64,
    timestamp: u64,
    ops: &mut [u64],
) -> Result<u64, Refusal>
    ensures answer { result ≡ number_of (blocks message.now) (message_refusal (length ops.old) message.now address timestamp) }
    ensures words { ops.new ≡ message_after message.now address timestamp ops.old }
{
    let room = ops.len();
    check_message(message, address, timestamp, room)?;
    put_list(message, address, timestamp, ops);
    Ok(block_count(message) as u64)
}

// Whether a list of operations is a message's, for its own first address and timestamp.
pub fn judge_message(message: &[u8], ops: &[u64]) -> Result<bool, Refusal>
    ensures { result ≡ judged_of (judged_refusal message.now ops.now) (is_message message.now ops.now) }
{
    check_list(message, ops)?;
    if ops.len() != block_count(message) * OP_WORDS {
        return Ok(false);
    }
    let timestamp = ops[0];
    let address = ops[1];
    if is_late(message, timestamp) {
        return Ok(false);
    }
    Ok(is_list(message, address, timestamp, ops))
}
