// An operation file against a core table: whether both record the same calls, in some order.
#![tactic(auto)]

ghost use Rattle.std.specs.Prelude.{◌≡◌, ◌&&◌, ◌+◌, ◌≤◌, ◌<◌, ltb, length, drop};
ghost use Rattle.std.proofs.Math.Option.{none};
ghost use Rattle.lists.specs.First.{place_of};
ghost use Rattle.lists.specs.Select.{words_test};
ghost use Rattle.answer.specs.Refusal.{accepted, answer_of, refuse_if, refuse_at};
ghost use Rattle.answer.specs.declared.Refusal.TheVariants.{NotWhole, NotElement};
ghost use Rattle.field.specs.Elements.{first_not_element};
ghost use Rattle.verdict.specs.Kind.{rows, row};
ghost use Rattle.verdict.specs.CoreAndRound.{core_layout};
ghost use Rattle.verdict.specs.Verdict.{ragged};
ghost use Rattle.op_file.specs.File.{records_of, first_fault};
ghost use Rattle.partners.specs.Partners.{alone, first_alone};
ghost use Rattle.same_operations.specs.Same.{record_cells, row_cells, file_run, core_run, agreement_of, same_for};
ghost use Rattle.same_operations.specs.Passed.{Stands, Agreed, Ahead};

use answer::Refusal;
use compare::{is_record, next_start};
use field::elements::first_not_element;
use judge_scan::{active_rows, is_active};
use keccak;
use op_reader::step::word_at;
use op_reader::{feed, start};
use op_sums::finish;
use scan::{count_records, count_rows, find_row, has_more_records, has_more_rows};
use verdict::Table;

pub mod compare;
pub mod scan;

// Both record the same calls; or the first record of the file with no partner of its own among the active rows; or, failing
// that, the first active row left.
#[derive(Clone, Copy)]
pub enum Agreement {
    Same,
    Record(usize),
    Row(usize),
}

// How many records were passed, of how many bytes, and how many rows, where the records and the active rows of them are the same.
#[derive(Clone, Copy)]
struct Passed {
    records: usize,
    bytes: usize,
    rows: usize,
}

// Whether row r has the cells of record i, which starts at byte `from`, if it is one of the n.
fn is_next(core: &[u64], r: usize, file: &[u8], n: usize, i: usize, from: usize) -> bool
    requires { (r < rows core_layout core.now) × (n ≡ length (records_of file.now)) × Stands file.now i from }
    ensures { result ≡ (ltb i n && words_test (record_cells (drop from file.now)) (row_cells (row core_layout core.now r))) }
{
    if i >= n {
        return false;
    }
    let stamp = word_at(file, from + 2);
    is_record(core, r, stamp, file, from)
}

// Along both while the next record is the next active row: what was in order has partners, and is not looked for again.
fn pass(core: &[u64], file: &[u8], n: usize) -> Passed
    requires { (first_fault 0 0 (records_of file.now) ≡ none) × (n ≡ length (records_of file.now)) }
    ensures { Agreed core.now file.now result }
{
    let height = core.len() / keccak::NUM_COLUMNS;
    let mut records: usize = 0;
    let mut bytes: usize = 0;
    for r in 0..height {
        if is_active(core, Table::Core, r) {
            if !is_next(core, r, file, n, records, bytes) {
                return Passed {
                    records,
                    bytes,
                    rows: r,
                };
            }
            bytes = next_start(file, bytes);
            records += 1;
        }
    }
    Passed {
        records,
        bytes,
        rows: height,
    }
}

// Whether record i, which starts at byte `from`, has no partner: the copies before it take all equal rows.
fn record_alone(core: &[u64], file: &[u8], p: Passed, i: usize, from: usize) -> bool
    requires { Agreed core.now file.now p × Stands file.now i from × (p.records ≤ i) × (i < length (records_of file.now)) }
    ensures { result ≡ alone (file_run file.now) (core_run core.now) i }
{
    let copies = count_records(file, p.records, p.bytes, i, from);
    !has_more_rows(core, p.rows, file, from, copies)
}

// Whether row r is active and has no partner, likewise.
fn row_alone(core: &[u64], file: &[u8], n: usize, p: Passed, r: usize) -> bool
    requires { Agreed core.now file.now p × (n ≡ length (records_of file.now)) × (p.rows ≤ r) × (r < rows core_layout core.now) }
    ensures { result ≡ alone (core_run core.now) (file_run file.now) r }
{
    if !is_active(core, Table::Core, r) {
        return false;
    }
    let copies = count_rows(core, p.rows, r);
    !has_more_records(core, r, file, n, p.records, p.bytes, copies)
}

// Whether a record is alone; the highest timestamp of the records so far; and the row behind the last partner.
#[derive(Clone, Copy)]
struct Looked {
    alone: bool,
    top: u64,
    next: usize,
}

// Whether record i is alone. A timestamp above all before it has no copy among them, so that one equal row is enough, and where rows
// rise too it is the next one: records in the writer's order are never compared with one another.
fn look(
    core: &[u64],
    file: &[u8],
    p: Passed,
    i: usize,
    from: usize,
    top: u64,
    next: usize,
) -> Looked
    requires { Agreed core.now file.now p × Stands file.now i from × (p.records ≤ i) × (i < length (records_of file.now)) × Ahead core.now file.now p i top next }
    ensures { (result.alone ≡ alone (file_run file.now) (core_run core.now) i) × Ahead core.now file.now p (i + 1) result.top result.next }
{
    let stamp = word_at(file, from + 2);
    if stamp <= top {
        return Looked {
            alone: record_alone(core, file, p, i, from),
            top,
            next,
        };
    }
    if let Some(r) = find_row(core, next, file, from) {
        return Looked {
            alone: false,
            top: stamp,
            next: r + 1,
        };
    }
    Looked {
        alone: record_alone(core, file, p, i, from),
        top: stamp,
        next,
    }
}

// The first record of the n without a partner.
fn first_record(core: &[u64], file: &[u8], n: usize, p: Passed) -> Option<usize>
    requires { Agreed core.now file.now p × (n ≡ length (records_of file.now)) }
    ensures { result ≡ place_of (first_alone (file_run file.now) (core_run core.now)) }
{
    let mut top: u64 = 0;
    let mut next = p.rows;
    let mut from = p.bytes;
    for i in p.records..n {
        let t = look(core, file, p, i, from, top, next);
        if t.alone {
            return Some(i);
        }
        top = t.top;
        next = t.next;
        from = next_start(file, from);
    }
    None
}

// The first active row without a partner among the n records.
fn first_row(core: &[u64], file: &[u8], n: usize, p: Passed) -> Option<usize>
    requires { Agreed core.now file.now p × (n ≡ length (records_of file.now)) }
    ensures { result ≡ place_of (first_alone (core_run core.now) (file_run file.now)) }
{
    let rows = core.len() / keccak::NUM_COLUMNS;
    for r in p.rows..rows {
        if row_alone(core, file, n, p, r) {
            return Some(r);
        }
    }
    None
}

// The n records of a file without a fault against the active rows. Where no record is alone and the rows are as many, no row is
// left, and none is looked for.
fn compared(core: &[u64], file: &[u8], n: usize) -> Agreement
    requires { (first_fault 0 0 (records_of file.now) ≡ none) × (n ≡ length (records_of file.now)) }
    ensures { result ≡ agreement_of core.now file.now }
{
    let p = pass(core, file, n);
    if let Some(i) = first_record(core, file, n, p) {
        return Agreement::Record(i);
    }
    if active_rows(core, Table::Core) == n {
        return Agreement::Same;
    }
    match first_row(core, file, n, p) {
        Some(r) => Agreement::Row(r),
        None => Agreement::Same,
    }
}

// The table is whole rows of field elements.
fn check_table(core: &[u64]) -> Result<(), Refusal>
    ensures { result ≡ answer_of (refuse_if (ragged core_layout core.now) (NotWhole 0) (refuse_at (first_not_element core.now (length core.now)) NotElement accepted)) }
{
    if core.len() % keccak::NUM_COLUMNS != 0 {
        return Err(Refusal::NotWhole(0));
    }
    if let Some(k) = first_not_element(core, core.len()) {
        return Err(Refusal::NotElement(k as u64));
    }
    Ok(())
}

// Whether the file's records and the table's active rows are the same, in some order, repeats counted.
pub fn same_operations(core: &[u64], file: &[u8]) -> Result<Agreement, Refusal>
    ensures { result ≡ same_for core.now file.now }
{
    check_table(core)?;
    let read = feed(start(), file);
    // Only the numbers of records count here, which are the same for every floor.
    let sums = finish(keccak::MIN_ROWS as u64, false, read)?;
    Ok(compared(core, file, (sums.ops + sums.unaligned) as usize))
}
