// An operation between the bytes of its record and its 53 words in a flat list, both ways.
ghost use Rattle.std.specs.Prelude.{◌≡◌, ◌+◌, ◌≤◌, length, drop, set};
ghost use Rattle.std.proofs.lemmas.List.Edits.{sets};
ghost use Rattle.lists.specs.Tab.{tab};
ghost use Rattle.keccak.specs.Row.{OP-WORDS, SEGMENT-WORD};
ghost use Rattle.op_file.specs.File.{RECORD-BYTES, SEGMENT-RECORD-BYTES, FIRST-MARK, record_size, size_of, record_word, operation_words};
ghost use Rattle.op_list.specs.Record.{word_byte, is_numbered, mark_of, record_bytes, words_from};

use keccak::SEGMENT_WORD;
use op_file::{FIRST_MARK, PLAIN_MARK, SEGMENT_MARK};
use op_reader::step::{record_size, segment_at, word_at};

// The words before the segment number of the record that starts at byte `from`, stored from `at` on.
fn read_words(bytes: &[u8], from: usize, ops: &mut [u64], at: usize)
    requires { (from + RECORD-BYTES ≤ length bytes.now) × (at + SEGMENT-WORD ≤ length ops.old) }
    ensures { ops.new ≡ sets ops.old at (tab SEGMENT-WORD (record_word (drop from bytes.now))) }
{
    for j in 0..SEGMENT_WORD {
        ops[at + j] = word_at(bytes, from + 2 + 8 * j);
    }
}

// The words of the record that starts at byte `from`, stored from `at` on; answers where the next one starts.
pub fn read_operation(bytes: &[u8], from: usize, ops: &mut [u64], at: usize) -> usize
    requires { (from + size_of (drop from bytes.now) ≤ length bytes.now) × (at + OP-WORDS ≤ length ops.old) }
    ensures { ops.new ≡ sets ops.old at (operation_words (drop from bytes.now)) × (result ≡ from + size_of (drop from bytes.now)) }
{
    let marked = bytes[from + 1] == SEGMENT_MARK;
    read_words(bytes, from, ops, at);
    ops[at + SEGMENT_WORD] = segment_at(bytes, from, marked);
    from + record_size(marked)
}

// The first `count` bytes of the words from `at` on, lowest first.
fn put_words(ops: &[u64], at: usize, count: usize, bytes: &mut [u8], to: usize)
    requires { (at + OP-WORDS ≤ length ops.now) × (count + 2 ≤ SEGMENT-RECORD-BYTES) × (to + count ≤ length bytes.old) }
    ensures { bytes.new ≡ sets bytes.old to (tab count (word_byte (words_from ops.now at))) }
{
    for k in 0..count {
        bytes[to + k] = ((ops[at + k / 8] >> (8 * (k % 8))) % 256) as u8;
    }
}

// Whether the operation whose words stand from `at` on has a segment number that is written.
pub fn is_numbered(ops: &[u64], at: usize) -> bool
    requires { at + OP-WORDS ≤ length ops.now }
    ensures { result ≡ is_numbered (words_from ops.now at) }
{
    ops[at + SEGMENT_WORD] != 0
}

fn mark_of(numbered: bool) -> u8
    ensures { result ≡ mark_of numbered }
{
    if numbered { SEGMENT_MARK } else { PLAIN_MARK }
}

fn put_mark(mark: u8, bytes: &mut [u8], to: usize)
    requires { to + 2 ≤ length bytes.old }
    ensures { bytes.new ≡ set (set bytes.old to FIRST-MARK) (to + 1) mark }
{
    bytes[to] = FIRST_MARK;
    bytes[to + 1] = mark;
}

// The record of the words from `at` on, stored from `to` on; answers where the next one starts.
pub fn write_operation(ops: &[u64], at: usize, bytes: &mut [u8], to: usize) -> usize
    requires { (at + OP-WORDS ≤ length ops.now) × (to + record_size (is_numbered (words_from ops.now at)) ≤ length bytes.old) }
    ensures { bytes.new ≡ sets bytes.old to (record_bytes (words_from ops.now at)) × (result ≡ to + record_size (is_numbered (words_from ops.now at))) }
{
    let numbered = is_numbered(ops, at);
    let size = record_size(numbered);
    put_mark(mark_of(numbered), bytes, to);
    put_words(ops, at, size - 2, bytes, to + 2);
    to + size
}
