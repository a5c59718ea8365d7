// The month in whole numbers, from the operation counts of its files: specs/Month.antt.
#![tactic(auto)]

ghost use Rattle.std.specs.Prelude.{◌≡◌, ℕ, ◌+◌, ◌*◌, ◌≤◌, ◌<◌, ltb, length, take};
ghost use Rattle.std.proofs.Math.Option.{some};
ghost use Rattle.lists.specs.Tab.{pick, tab, word};
ghost use Rattle.lists.specs.First.{any_below};
ghost use Rattle.lists.specs.Sum.{sum_below};
ghost use Rattle.answer.specs.Limits.{MAX-OPS, MAX-ROUNDS};
ghost use Rattle.answer.specs.Refusal.{answer_of, PowerFloor, overwrite};
ghost use Rattle.keccak_rnd.specs.Row.{round_height};
ghost use Rattle.month.specs.Month.{MAX-FILES, MONTH-WORDS, HEIGHTS, height_of, used_at, total_at, fuller, operations_of, fullest, emptiest, files_at, shown, month_words, month_refusal, month_after, Planned};

use answer::{MAX_OPS, Refusal, check_rounds_and_floor};
use lists::put_words;
use operations::table_height;

// The most files of a month.
pub const MAX_FILES: usize = 4096;

// The words of a month, and the heights among them: 2^2 to 2^31.
pub const MONTH_WORDS: usize = 39;

pub const HEIGHTS: usize = 30;

// The rows of a file's round table: those that are used, and all of them.
#[derive(Clone, Copy)]
struct Rows {
    used: u64,
    total: u64,
}

// The rows of n operations.
fn rows_of(nr: u64, floor: u64, n: u64) -> Rows
    requires { (nr ≤ MAX-ROUNDS) × PowerFloor floor × (n ≤ MAX-OPS) }
    ensures { (result.used ≡ n * nr) × (result.total ≡ round_height nr floor n) }
{
    let used = n * nr;
    let total = table_height(floor as usize, used as usize);
    Rows {
        used,
        total: total as u64,
    }
}

// Whether the round table of n operations is fuller than that of m.
fn is_fuller(nr: u64, floor: u64, n: u64, m: u64) -> bool
    requires { (nr ≤ MAX-ROUNDS) × PowerFloor floor × (n ≤ MAX-OPS) × (m ≤ MAX-OPS) }
    ensures { result ≡ fuller nr floor n m }
{
    let a = rows_of(nr, floor, n);
    let b = rows_of(nr, floor, m);
    b.used * a.total < a.used * b.total
}

// Whether a file of n operations comes before one of m: as the fuller, or as the emptier.
fn beats(full: bool, nr: u64, floor: u64, n: u64, m: u64) -> bool
    requires { (nr ≤ MAX-ROUNDS) × PowerFloor floor × (n ≤ MAX-OPS) × (m ≤ MAX-OPS) }
    ensures { result ≡ pick full (fuller nr floor n m) (fuller nr floor m n) }
{
    if full {
        return is_fuller(nr, floor, n, m);
    }
    is_fuller(nr, floor, m, n)
}

// The first file that none beats.
fn first_unbeaten(full: bool, nr: u64, floor: u64, counts: &[u64]) -> usize
    requires { Planned nr floor counts.now × (0 < length counts.now) }
    ensures { pick full (fullest nr floor counts.now) (emptiest nr floor counts.now) ≡ some result }
{
    let mut best: usize = 0;
    for i in 1..counts.len() {
        if beats(full, nr, floor, counts[i], counts[best]) {
            best = i;
        }
    }
    best
}

// The rows of the fullest round table, or of the emptiest; 0 and 0 where there is no file.
fn rows_shown(full: bool, nr: u64, floor: u64, counts: &[u64]) -> Rows
    requires { Planned nr floor counts.now }
    ensures { (result.used ≡ shown (used_at nr counts.now) (pick full (fullest nr floor counts.now) (emptiest nr floor counts.now))) × (result.total ≡ shown (total_at nr floor counts.now) (pick full (fullest nr floor counts.now) (emptiest nr floor counts.now))) }
{
    if counts.len() == 0 {
        return Rows { used: 0, total: 0 };
    }
    let i = first_unbeaten(full, nr, floor, counts);
    rows_of(nr, floor, counts[i])
}

// All operations.
fn all_operations(counts: &[u64]) -> u64
    requires { (length counts.now ≤ MAX-FILES) × ((i : ℕ) → i < length counts.now → word counts.now i ≤ MAX-OPS) }
    ensures { result ≡ operations_of counts.now }
{
    let mut sum: u64 = 0;
    for i in 0..counts.len() {
        sum += counts[i];
    }
    sum
}

// All rows, used or not.
fn all_rows(nr: u64, floor: u64, counts: &[u64]) -> u64
    requires { Planned nr floor counts.now }
    ensures { result ≡ sum_below (length counts.now) (total_at nr floor counts.now) }
{
    let mut sum: u64 = 0;
    for i in 0..counts.len() {
        let rows = rows_of(nr, floor, counts[i]);
        sum += rows.total;
    }
    sum
}

// Which of the heights h is: 0 for 2^2.
fn height_place(h: u64) -> usize
    requires { (e : ℕ) × (e < HEIGHTS) × (h ≡ height_of e) }
    ensures { (result < HEIGHTS) × (h ≡ height_of result) }
{
    h.ilog2() as usize - 2
}

// The files at each height.
fn file_counts(nr: u64, floor: u64, counts: &[u64]) -> [u64; 30]
    requires { Planned nr floor counts.now }
    ensures { result ≡ tab HEIGHTS (λ e. files_at nr floor counts.now (height_of e)) }
{
    let mut files = [0u64; 30];
    for i in 0..counts.len() {
        let rows = rows_of(nr, floor, counts[i]);
        let e = height_place(rows.total);
        files[e] += 1;
    }
    files
}

// The words before the heights: files, operations, used and padding rows, the fullest and the emptiest.
fn first_words(nr: u64, floor: u64, counts: &[u64]) -> [u64; 8]
    requires { Planned nr floor counts.now }
    ensures { result ≡ take 8 (month_words nr floor counts.now) }
{
    let full = rows_shown(true, nr, floor, counts);
    let empty = rows_shown(false, nr, floor, counts);
    let ops = all_operations(counts);
    let used = ops * nr;
    let padding = all_rows(nr, floor, counts) - used;
    [
        counts.len() as u64,
        ops,
        used,
        padding,
        full.used,
        full.total,
        empty.used,
        empty.total,
    ]
}

// The words of a month that passed the checks. The last says whether there is a file.
fn put_month(nr: u64, floor: u64, counts: &[u64], out: &mut [u64])
    requires { Planned nr floor counts.now × (MONTH-WORDS ≤ length out.old) }
    ensures { out.new ≡ overwrite (month_words nr floor counts.now) out.old }
{
    let first = first_words(nr, floor, counts);
    let files = file_counts(nr, floor, counts);
    put_words(out, 0, &first, 8);
    put_words(out, 8, &files, HEIGHTS);
    if counts.len() == 0 {
        out[38] = 0;
    } else {
        out[38] = 1;
    }
}

// Whether a count is past the most operations of a file.
fn any_past(counts: &[u64]) -> bool
    ensures { result ≡ any_below (λ i. ltb MAX-OPS (word counts.now i)) (length counts.now) }
{
    for i in 0..counts.len() {
        if counts[i] > MAX_OPS {
            return true;
        }
    }
    false
}

// The checks: 8, 9, 14, 1, 3.
fn check_month(nr: u64, floor: u64, counts: &[u64], room: usize) -> Result<(), Refusal>
    ensures { result ≡ answer_of (month_refusal nr floor counts.now room) }
{
    check_rounds_and_floor(nr, floor)?;
    if counts.len() > MAX_FILES {
        return Err(Refusal::Files(counts.len() as u64));
    }
    if any_past(counts) {
        return Err(Refusal::PastEnd(MAX_OPS + 1));
    }
    if room < MONTH_WORDS {
        return Err(Refusal::TooShort(MONTH_WORDS as u64));
    }
    Ok(())
}

// The month of files with these operation counts, of nr rounds each, in tables of `floor` rows or more.
pub fn month(nr: u64, floor: u64, counts: &[u64], out: &mut [u64]) -> Result<(), Refusal>
    ensures answer { result ≡ answer_of (month_refusal nr floor counts.now (length out.old)) }
    ensures words { out.new ≡ month_after nr floor counts.now out.old }
{
    check_month(nr, floor, counts, out.len())?;
    put_month(nr, floor, counts, out);
    Ok(())
}
