// The checks of a message, of the address and timestamp that its operations are to have, and of a list to be judged.
ghost use Rattle.std.specs.Prelude.{◌≡◌};
ghost use Rattle.sha3.specs.Sha3.{blocks};
ghost use Rattle.answer.specs.Refusal.{accepted, answer_of};
ghost use Rattle.message.specs.Message.{is_late, bad_place, message_refusal, judged_refusal};

use crate::blocks::block_count;
use answer::{MAX_OPS, Refusal};
use keccak::{LAST_ADDRESS, OP_WORDS};
use operations::check_operations;

// The most bytes of a message.
pub const MAX_MESSAGE: usize = 65536;

// The last timestamp: 2^64 - 1.
const LAST_TIMESTAMP: u64 = 18446744073709551615;

// Whether the timestamps from this one on pass the last.
pub fn is_late(message: &[u8], timestamp: u64) -> bool
    ensures { result ≡ is_late message.now timestamp }
{
    let more = (block_count(message) - 1) as u64;
    timestamp > LAST_TIMESTAMP - more
}

// The checks of an address.
fn check_address(address: u64) -> Result<(), Refusal>
    ensures { result ≡ answer_of (bad_place address accepted) }
{
    if address > LAST_ADDRESS {
        return Err(Refusal::HighAddress(address));
    }
    if address % 8 != 0 {
        return Err(Refusal::Unaligned(address));
    }
    Ok(())
}

// The checks of `message_operations`, with room for so many words.
pub fn check_message(
    message: &[u8],
    address: u64,
    timestamp: u64,
    room: usize,
) -> Result<(), Refusal>
    ensures { result ≡ answer_of (message_refusal room message.now address timestamp) }
{
    let n = message.len();
    if n > MAX_MESSAGE {
        return Err(Refusal::LongMessage(n as u64));
    }
    if is_late(message, timestamp) {
        return Err(Refusal::LateTimestamp(timestamp));
    }
    let needed = block_count(message) * OP_WORDS;
    if room < needed {
        return Err(Refusal::TooShort(needed as u64));
    }
    check_address(address)
}

// The checks of `judge_message`.
pub fn check_list(message: &[u8], ops: &[u64]) -> Result<(), Refusal>
    ensures { result ≡ answer_of (judged_refusal message.now ops.now) }
{
    if (ops.len() / OP_WORDS) as u64 > MAX_OPS {
        return Err(Refusal::PastEnd(MAX_OPS + 1));
    }
    let n = message.len();
    if n > MAX_MESSAGE {
        return Err(Refusal::LongMessage(n as u64));
    }
    check_operations(ops, 0, 0)
}
