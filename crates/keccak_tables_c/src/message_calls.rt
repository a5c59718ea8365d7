// A message as the operations that hash it, and a list of operations judged against a message.
ghost use Rattle.std.specs.Prelude.{◌≡◌, length};
ghost use Rattle.sha3.specs.Sha3.{blocks};
ghost use Rattle.answer.specs.Refusal.{number_of};
ghost use Rattle.message.specs.Message.{message_refusal, message_after, judged_refusal, is_message, judged_of};
ghost use Rattle.flat.specs.Flat.{flat_number};
ghost use Rattle.flat.specs.FlatJudged.{flat_reply};

use flat::{FlatNumber, FlatReply};

#[unsafe(no_mangle)]
pub extern "C" fn keccak_tables_message_operations(
    message: &[u8],
    address: u64,
    timestamp: u64,
    ops: &mut [u64],
) -> FlatNumber
    ensures answer { result ≡ flat_number (number_of (blocks message.now) (message_refusal (length ops.old) message.now address timestamp)) }
    ensures words { ops.new ≡ message_after message.now address timestamp ops.old }
{
    keccak_tables::message_calls::keccak_tables_message_operations(message, address, timestamp, ops)
}

#[unsafe(no_mangle)]
pub extern "C" fn keccak_tables_judge_message(message: &[u8], ops: &[u64]) -> FlatReply
    ensures { result ≡ flat_reply (judged_of (judged_refusal message.now ops.now) (is_message message.now ops.now)) }
{
    keccak_tables::message_calls::keccak_tables_judge_message(message, ops)
}
