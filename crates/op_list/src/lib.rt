// A whole operation file and the flat list of its operations, both ways.
#![tactic(auto)]

ghost use Rattle.std.specs.Prelude.{◌≡◌, ◌*◌, ◌≤◌, length};
ghost use Rattle.std.proofs.Math.Option.{none};
ghost use Rattle.std.proofs.lemmas.List.Edits.{sets};
ghost use Rattle.answer.specs.Limits.{MAX-OPS};
ghost use Rattle.answer.specs.Refusal.{answer_of};
ghost use Rattle.keccak.specs.Row.{OP-WORDS};
ghost use Rattle.op_file.specs.File.{records_of, bytes_of, first_fault, file_words};
ghost use Rattle.op_list.specs.Files.{read_refusal, write_refusal, read_after, write_after, records_for, bytes_for};

use answer::{MAX_OPS, Refusal};
use keccak::{MIN_ROWS, OP_WORDS};
use op_reader::step::record_size;
use op_reader::{feed, start};
use op_sums::finish;
use operations::check_operations;
use record::{is_numbered, read_operation, write_operation};

pub mod record;

// The words of the n records of a file without a fault.
fn put_operations(file: &[u8], n: usize, ops: &mut [u64])
    requires { (first_fault 0 0 (records_of file.now) ≡ none) × (n ≡ length (records_of file.now)) × (n * OP-WORDS ≤ length ops.old) }
    ensures { ops.new ≡ sets ops.old 0 (file_words file.now) }
{
    let mut from: usize = 0;
    for i in 0..n {
        from = read_operation(file, from, ops, i * OP_WORDS);
    }
}

// The operations of a file, from the front of `ops` on: all of them, those that `tally` leaves out too.
pub fn read_operations(file: &[u8], ops: &mut [u64]) -> Result<(), Refusal>
    ensures answer { result ≡ answer_of (read_refusal file.now (length ops.old)) }
    ensures words { ops.new ≡ read_after file.now ops.old }
{
    let read = feed(start(), file);
    // Only the numbers of records count here, which are the same for every floor.
    let sums = finish(MIN_ROWS as u64, false, read)?;
    let n = (sums.ops + sums.unaligned) as usize;
    if ops.len() < n * OP_WORDS {
        return Err(Refusal::TooShort((n * OP_WORDS) as u64));
    }
    put_operations(file, n, ops);
    Ok(())
}

// How many bytes the records of the first n operations have.
fn bytes_for(ops: &[u64], n: usize) -> usize
    requires { (n ≤ MAX-OPS) × (n * OP-WORDS ≤ length ops.now) }
    ensures { result ≡ bytes_for ops.now n }
{
    let mut bytes: usize = 0;
    for i in 0..n {
        bytes += record_size(is_numbered(ops, i * OP_WORDS));
    }
    bytes
}

// The records of the first n operations.
fn put_records(ops: &[u64], n: usize, file: &mut [u8])
    requires { (n * OP-WORDS ≤ length ops.now) × (bytes_for ops.now n ≤ length file.old) }
    ensures { file.new ≡ sets file.old 0 (bytes_of (records_for ops.now n)) }
{
    let mut to: usize = 0;
    for i in 0..n {
        to = write_operation(ops, i * OP_WORDS, file, to);
    }
}

// The file of a list of operations, from the front of `file` on.
pub fn write_operations(ops: &[u64], file: &mut [u8]) -> Result<(), Refusal>
    ensures answer { result ≡ answer_of (write_refusal (length file.old) ops.now) }
    ensures words { file.new ≡ write_after ops.now file.old }
{
    let n = ops.len() / OP_WORDS;
    if n as u64 > MAX_OPS {
        return Err(Refusal::PastEnd(MAX_OPS + 1));
    }
    let room = file.len();
    check_operations(ops, room, bytes_for(ops, n))?;
    put_records(ops, n, file);
    Ok(())
}
