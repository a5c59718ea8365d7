// tables/keccak.rs: the IS_WH keys of the pointers of a list of operations.
#![tactic(auto)]

ghost use Rattle.std.specs.Prelude.{◌≡◌, ◌+◌, ◌*◌, ◌^◌, ◌<◌, ◌≤◌, length};
ghost use Rattle.std.proofs.Math.Option.{none};
ghost use Rattle.std.proofs.lemmas.List.Edits.{sets};
ghost use Rattle.lists.specs.Tab.{tab};
ghost use Rattle.lists.specs.First.{first_at};
ghost use Rattle.is_wh.specs.Key.{of-dword};
ghost use Rattle.answer.specs.Refusal.{answer_of};
ghost use Rattle.keccak.specs.Row.{OP-WORDS, KEY-WORDS, key_word, pointer_key, key_words, op_at};
ghost use Rattle.keccak.specs.Refusals.{high_at, wide_at, keys_refusal};
ghost use Rattle.keccak.specs.Calls.{keys_after};

use answer::{MAX_OPS, Refusal};
use is_wh::IsWhKey;
use keccak::{KEY_WORDS, KeccakOperation, OP_WORDS};
use operations::{check_operations, operation_at};

// The key of a pointer.
fn put_key(out: &mut [u64], at: usize, pointer: u64)
    requires { at + 2 ≤ length out.old }
    ensures { out.new ≡ sets out.old at (tab 2 (key_word (of-dword pointer))) }
{
    let key = IsWhKey::of_dword(pointer);
    out[at] = key.word;
    out[at + 1] = key.half;
}

// The keys of an operation's 25 pointers.
fn put_keys(out: &mut [u64], at: usize, op: KeccakOperation)
    requires { (at + KEY-WORDS ≤ length out.old) × (op.state_addr + 192 < 2 ^ 64) }
    ensures { out.new ≡ sets out.old at (tab KEY-WORDS (pointer_key op.state_addr)) }
{
    let addr = op.state_addr;
    for i in 0..25 {
        put_key(out, at + 2 * i, addr + 8 * (i as u64));
    }
}

// The keys of n operations.
fn put_op_keys(ops: &[u64], n: usize, out: &mut [u64])
    requires { (OP-WORDS * n ≤ length ops.now) × (n * KEY-WORDS ≤ length out.old) × (first_at (high_at ops.now) n ≡ none) × (first_at (wide_at ops.now) n ≡ none) }
    ensures { out.new ≡ sets out.old 0 (key_words n (op_at ops.now)) }
{
    for i in 0..n {
        let op = operation_at(ops, i);
        put_keys(out, i * KEY_WORDS, op);
    }
}

// The IS_WH keys of a list of operations: per lane the pointer's upper 32 bits, then its bits 16 to 31.
pub fn is_wh_keys(ops: &[u64], out: &mut [u64]) -> Result<(), Refusal>
    ensures answer { result ≡ answer_of (keys_refusal (length out.old) ops.now) }
    ensures words { out.new ≡ keys_after ops.now out.old }
{
    let n = ops.len() / OP_WORDS;
    if n as u64 > MAX_OPS {
        return Err(Refusal::PastEnd(MAX_OPS + 1));
    }
    let room = out.len();
    check_operations(ops, room, n * KEY_WORDS)?;
    put_op_keys(ops, n, out);
    Ok(())
}
