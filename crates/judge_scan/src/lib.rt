// What the verdict's scans share: the rows of either table, which are active and how many, whether two have one
// timestamp, and where a scan found something; and the scan for a timestamp that an earlier active core row has.
#![tactic(auto)]

ghost use Rattle.std.specs.Prelude.{◌≡◌, ◌≤◌, ◌<◌, length};
ghost use Rattle.lists.specs.Tab.{row_at};
ghost use Rattle.lists.specs.First.{any_below, place_of};
ghost use Rattle.verdict.specs.Kind.{rows, active, actives, same_stamp};
ghost use Rattle.verdict.specs.Verdict.{same_stamp_at, first_repeat};
ghost use Rattle.verdict.specs.CoreAndRound.{core_layout};
ghost use Rattle.judge_scan.specs.Tables.{layout_of};
ghost use Rattle.judge_scan.specs.Highest.{exceeds};

use keccak;
use keccak_rnd;
use verdict::Table;

// The lowest row, and in it the lowest index.
#[derive(Clone, Copy)]
pub struct Spot {
    pub row: usize,
    pub index: usize,
}

// How many words a row has. MU is the last of them in either table.
pub fn width_of(table: Table) -> usize
    ensures { result ≡ (layout_of table).width }
{
    match table {
        Table::Core => keccak::NUM_COLUMNS,
        Table::Round => keccak_rnd::NUM_COLUMNS,
    }
}

// A row of a table, as the part of the slice that it is.
pub fn row_at(words: &[u64], table: Table, row: usize) -> &[u64]
    requires { row < rows (layout_of table) words.now }
    ensures { result.now ≡ row_at (layout_of table).width words.now row }
{
    let width = width_of(table);
    let start = row * width;
    let end = start + width;
    &words[start..end]
}

pub fn is_active(words: &[u64], table: Table, row: usize) -> bool
    requires { row < rows (layout_of table) words.now }
    ensures { result ≡ active (layout_of table) words.now row }
{
    let width = width_of(table);
    words[row * width + (width - 1)] == 1
}

// How many rows of a table are active.
pub fn active_rows(words: &[u64], table: Table) -> usize
    ensures { result ≡ actives (layout_of table) words.now }
{
    let width = width_of(table);
    let rows = words.len() / width;
    let mut n = 0;
    for row in 0..rows {
        if is_active(words, table, row) {
            n += 1;
        }
    }
    n
}

// Whether two rows have one timestamp: both words.
pub fn same_stamp(x: &[u64], y: &[u64]) -> bool
    requires { (2 ≤ length x.now) × (2 ≤ length y.now) }
    ensures { result ≡ same_stamp x.now y.now }
{
    if x[0] != y[0] {
        return false;
    }
    x[1] == y[1]
}

// Whether an earlier active row has the timestamp of row r.
fn has_same_stamp(core: &[u64], r: usize) -> bool
    requires { r < rows core_layout core.now }
    ensures { result ≡ any_below (same_stamp_at core_layout core.now r) r }
{
    let y = row_at(core, Table::Core, r);
    for q in 0..r {
        if is_active(core, Table::Core, q) {
            let x = row_at(core, Table::Core, q);
            if same_stamp(x, y) {
                return true;
            }
        }
    }
    false
}

// The highest timestamp of the active rows so far, if there is one.
#[derive(Clone, Copy)]
struct Highest {
    some: bool,
    high: u64,
    low: u64,
}

// Whether a timestamp is above it.
fn above(top: Highest, high: u64, low: u64) -> bool
    ensures { result ≡ exceeds top high low }
{
    if !top.some {
        return true;
    }
    if high != top.high {
        return high > top.high;
    }
    low > top.low
}

// A row above all before it repeats none of them, so rows in the writer's order are never compared with one another.
pub fn first_repeat(core: &[u64]) -> Option<usize>
    ensures { result ≡ place_of (first_repeat core_layout core.now) }
{
    let rows = core.len() / keccak::NUM_COLUMNS;
    let mut top = Highest {
        some: false,
        high: 0,
        low: 0,
    };
    for row in 0..rows {
        if is_active(core, Table::Core, row) {
            let low = core[row * keccak::NUM_COLUMNS];
            let high = core[row * keccak::NUM_COLUMNS + 1];
            if above(top, high, low) {
                top = Highest {
                    some: true,
                    high,
                    low,
                };
            } else if has_same_stamp(core, row) {
                return Some(row);
            }
        }
    }
    None
}
