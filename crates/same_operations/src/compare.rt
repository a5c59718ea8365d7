// A record of the file against a row of the core table, a row against a row, and a record against a record.
ghost use Rattle.std.specs.Prelude.{◌≡◌, not, ◌+◌, ◌≤◌, ◌<◌, length, drop};
ghost use Rattle.lists.specs.Tab.{word};
ghost use Rattle.lists.specs.First.{any_below};
ghost use Rattle.lists.specs.Select.{words_test, words_differ};
ghost use Rattle.bits.specs.Bits.{pack};
ghost use Rattle.verdict.specs.Kind.{rows, row};
ghost use Rattle.verdict.specs.CoreAndRound.{core_layout};
ghost use Rattle.op_file.specs.File.{RECORD-BYTES, size_of};
ghost use Rattle.partners.specs.Partners.{holds_at};
ghost use Rattle.same_operations.specs.Same.{record_cells, row_cells, core_run};

use judge_scan::is_active;
use keccak;
use lists::same_words;
use op_file::SEGMENT_MARK;
use op_reader::step::record_size;
use verdict::Table;

fn wide(b: u8) -> u64
    ensures { result ≡ b }
{
    b as u64
}

// Whether the n words from `at` on are the n bytes from `from` on. A word of 256 or more is no byte.
fn same_cells(words: &[u64], at: usize, bytes: &[u8], from: usize, n: usize) -> bool
    requires { (at + n ≤ length words.now) × (from + n ≤ length bytes.now) }
    ensures { result ≡ not (any_below (words_differ words.now at bytes.now from) n) }
{
    for k in 0..n {
        if words[at + k] != wide(bytes[from + k]) {
            return false;
        }
    }
    true
}

// Whether the n bytes from a on are those from b on.
fn same_bytes(bytes: &[u8], a: usize, b: usize, n: usize) -> bool
    requires { (a + n ≤ length bytes.now) × (b + n ≤ length bytes.now) }
    ensures { result ≡ not (any_below (words_differ bytes.now a bytes.now b) n) }
{
    for k in 0..n {
        if bytes[a + k] != bytes[b + k] {
            return false;
        }
    }
    true
}

// Whether a row has the cells of the record that starts at byte `from`, whose timestamp is `stamp`. Timestamps come first: most
// rows differ there.
pub fn is_record(core: &[u64], r: usize, stamp: u64, file: &[u8], from: usize) -> bool
    requires { (r < rows core_layout core.now) × (from + RECORD-BYTES ≤ length file.now) × (stamp ≡ pack 8 (from + 2) (word file.now)) }
    ensures { result ≡ words_test (record_cells (drop from file.now)) (row_cells (row core_layout core.now r)) }
{
    let at = r * keccak::NUM_COLUMNS;
    if core[at] != stamp % 4294967296 {
        return false;
    }
    if core[at + 1] != stamp / 4294967296 {
        return false;
    }
    same_cells(
        core,
        at + keccak::ADDR,
        file,
        from + 10,
        keccak::STATE_PTR - keccak::ADDR,
    )
}

// The same of an active row.
pub fn has_record(core: &[u64], r: usize, stamp: u64, file: &[u8], from: usize) -> bool
    requires { (r < rows core_layout core.now) × (from + RECORD-BYTES ≤ length file.now) × (stamp ≡ pack 8 (from + 2) (word file.now)) }
    ensures { result ≡ holds_at (core_run core.now) (record_cells (drop from file.now)) r }
{
    if !is_record(core, r, stamp, file, from) {
        return false;
    }
    is_active(core, Table::Core, r)
}

// Whether row q is active and has the cells of row r.
pub fn has_row(core: &[u64], r: usize, q: usize) -> bool
    requires { (r < rows core_layout core.now) × (q < rows core_layout core.now) }
    ensures { result ≡ holds_at (core_run core.now) (row_cells (row core_layout core.now r)) q }
{
    let here = r * keccak::NUM_COLUMNS;
    let there = q * keccak::NUM_COLUMNS;
    if !same_words(core, here, core, there, keccak::STATE_PTR) {
        return false;
    }
    is_active(core, Table::Core, q)
}

// Whether the records that start at bytes a and b have the same cells: the bytes between their marks and their segment numbers.
pub fn same_record(file: &[u8], a: usize, b: usize) -> bool
    requires { (a + RECORD-BYTES ≤ length file.now) × (b + RECORD-BYTES ≤ length file.now) }
    ensures { result ≡ words_test (record_cells (drop a file.now)) (record_cells (drop b file.now)) }
{
    same_bytes(file, a + 2, b + 2, op_file::RECORD_BYTES - 2)
}

// Where the record behind the one at byte `from` starts.
pub fn next_start(file: &[u8], from: usize) -> usize
    requires { from + size_of (drop from file.now) ≤ length file.now }
    ensures { result ≡ from + size_of (drop from file.now) }
{
    from + record_size(file[from + 1] == SEGMENT_MARK)
}
