// How many copies of a record or of a row stand on its own side before it, whether more than that many stand on the other, and where the
// next row stands that is equal to a record.
ghost use Rattle.std.specs.Prelude.{◌≡◌, ◌+◌, ◌≤◌, ◌<◌, ltb, length, drop};
ghost use Rattle.lists.specs.First.{first_at, place_of};
ghost use Rattle.verdict.specs.Kind.{rows, row};
ghost use Rattle.verdict.specs.CoreAndRound.{core_layout};
ghost use Rattle.op_file.specs.File.{RECORD-BYTES, records_of};
ghost use Rattle.partners.specs.Partners.{holds_at, count_between};
ghost use Rattle.same_operations.specs.Same.{record_cells, row_cells, file_run, core_run};
ghost use Rattle.same_operations.specs.Passed.{Stands, from_on};

use super::compare::{has_record, has_row, is_record, next_start, same_record};
use keccak;
use op_reader::step::word_at;

// How many records from record a on, which starts at byte `start`, and before record i have the cells of the one at byte `from`.
pub fn count_records(file: &[u8], a: usize, start: usize, i: usize, from: usize) -> usize
    requires { Stands file.now a start × (a ≤ i) × (i ≤ length (records_of file.now)) × (from + RECORD-BYTES ≤ length file.now) }
    ensures { result ≡ count_between (holds_at (file_run file.now) (record_cells (drop from file.now))) a i }
{
    let mut n: usize = 0;
    let mut at = start;
    for k in a..i {
        if same_record(file, from, at) {
            n += 1;
        }
        at = next_start(file, at);
    }
    n
}

// How many active rows from row b on and before row r have its cells.
pub fn count_rows(core: &[u64], b: usize, r: usize) -> usize
    requires { (b ≤ r) × (r < rows core_layout core.now) }
    ensures { result ≡ count_between (holds_at (core_run core.now) (row_cells (row core_layout core.now r))) b r }
{
    let mut n: usize = 0;
    for q in b..r {
        if has_row(core, r, q) {
            n += 1;
        }
    }
    n
}

// The first active row from row h on that has the cells of the record at byte `from`.
pub fn find_row(core: &[u64], h: usize, file: &[u8], from: usize) -> Option<usize>
    requires { (h ≤ rows core_layout core.now) × (from + RECORD-BYTES ≤ length file.now) }
    ensures { result ≡ place_of (first_at (from_on h (holds_at (core_run core.now) (record_cells (drop from file.now)))) (rows core_layout core.now)) }
{
    let rows = core.len() / keccak::NUM_COLUMNS;
    let stamp = word_at(file, from + 2);
    for r in h..rows {
        if has_record(core, r, stamp, file, from) {
            return Some(r);
        }
    }
    None
}

// Whether more than c active rows from row b on have the cells of the record at byte `from`. The scan ends with the first too many.
pub fn has_more_rows(core: &[u64], b: usize, file: &[u8], from: usize, c: usize) -> bool
    requires { (b ≤ rows core_layout core.now) × (from + RECORD-BYTES ≤ length file.now) }
    ensures { result ≡ ltb c (count_between (holds_at (core_run core.now) (record_cells (drop from file.now))) b (rows core_layout core.now)) }
{
    let rows = core.len() / keccak::NUM_COLUMNS;
    let stamp = word_at(file, from + 2);
    let mut left = c;
    for r in b..rows {
        if has_record(core, r, stamp, file, from) {
            if left == 0 {
                return true;
            }
            left -= 1;
        }
    }
    false
}

// Whether more than c of the n records, from record a on, which starts at byte `start`, have the cells of row r.
pub fn has_more_records(
    core: &[u64],
    r: usize,
    file: &[u8],
    n: usize,
    a: usize,
    start: usize,
    c: usize,
) -> bool
    requires { (r < rows core_layout core.now) × (n ≡ length (records_of file.now)) × Stands file.now a start }
    ensures { result ≡ ltb c (count_between (holds_at (file_run file.now) (row_cells (row core_layout core.now r))) a n) }
{
    let mut left = c;
    let mut at = start;
    for k in a..n {
        let stamp = word_at(file, at + 2);
        if is_record(core, r, stamp, file, at) {
            if left == 0 {
                return true;
            }
            left -= 1;
        }
        at = next_start(file, at);
    }
    false
}
