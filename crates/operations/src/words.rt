// An operation's words in a flat list: made, stored and compared.
ghost use Rattle.std.specs.Prelude.{◌≡◌, not, ◌+◌, ◌≤◌, length};
ghost use Rattle.std.proofs.lemmas.List.Edits.{sets};
ghost use Rattle.lists.specs.First.{any_below};
ghost use Rattle.lists.specs.Select.{words_differ};
ghost use Rattle.keccak.specs.Row.{OP-WORDS, list_words};

use keccak::{KeccakOperation, OP_WORDS, SEGMENT_WORD};
use lists::{put_words, same_words};

// The words of an operation, as they stand in a flat list.
pub fn operation_words(op: KeccakOperation) -> [u64; OP_WORDS]
    ensures { result ≡ list_words op }
{
    let input = op.input;
    let output = op.output;
    let mut words = [0u64; OP_WORDS];
    words[0] = op.timestamp;
    words[1] = op.state_addr;
    put_words(&mut words, 2, &input, 25);
    put_words(&mut words, 27, &output, 25);
    words[SEGMENT_WORD] = op.segment as u64;
    words
}

// An operation, stored from `at` on.
pub fn put_operation(ops: &mut [u64], at: usize, op: KeccakOperation)
    requires { at + OP-WORDS ≤ length ops.old }
    ensures { ops.new ≡ sets ops.old at (list_words op) }
{
    let words = operation_words(op);
    put_words(ops, at, &words, OP_WORDS);
}

// Whether the words from `at` on are those of an operation.
pub fn same_operation(ops: &[u64], at: usize, op: KeccakOperation) -> bool
    requires { at + OP-WORDS ≤ length ops.now }
    ensures { result ≡ not (any_below (words_differ ops.now at (list_words op) 0) OP-WORDS) }
{
    let words = operation_words(op);
    same_words(ops, at, &words, 0, OP_WORDS)
}
