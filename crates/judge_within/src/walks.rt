// Walks over sorted places: the first unbalanced place, and the first row with the timestamp of an earlier one.
ghost use Rattle.std.specs.Prelude.{◌≡◌, true, false, not, ◌&&◌, List, ℕ, ◌^◌, ◌<◌, ltb, length};
ghost use Rattle.lists.specs.Tab.{pick};
ghost use Rattle.lists.specs.First.{first_at, place_of};
ghost use Rattle.lists.specs.Select.{words_test};
ghost use Rattle.verdict.specs.Kind.{rows, row, same_stamp};
ghost use Rattle.verdict.specs.Verdict.{first_repeat};
ghost use Rattle.verdict.specs.CoreAndRound.{core_layout};
ghost use Rattle.judge_links.specs.Counting.{with_row};
ghost use Rattle.sort_places.specs.Places.{place_count, place_tuple};
ghost use Rattle.judge_within.specs.Places.{sends, bad_place, arranged};
ghost use Rattle.judge_within.specs.Groups.{Apart, GroupAt};

use super::places::{is_sent, place_count};
use judge_links::Counts;
use judge_scan::{row_at, same_stamp};
use judge_tuples::same_tuple;
use keccak;
use sort_places::{port_of, row_of};
use verdict::Table;

// The lower of two numbers, the second only where it counts.
fn lower(least: usize, p: usize, counts: bool) -> usize
    ensures { result ≡ pick (counts && ltb p least) p least }
{
    if !counts {
        return least;
    }
    if p < least {
        return p;
    }
    least
}

// Whether two places have one tuple.
fn same_places<'a>(nr: usize, core: &'a [u64], round: &'a [u64], p: u64, q: u64) -> bool
    requires { (p < place_count core.now round.now) × (q < place_count core.now round.now) }
    ensures { result ≡ words_test (place_tuple nr core.now round.now p) (place_tuple nr core.now round.now q) }
{
    let i = p as usize;
    let j = q as usize;
    let s = port_of(nr, core, i);
    let t = port_of(nr, core, j);
    let x = row_of(core, round, i);
    let y = row_of(core, round, j);
    same_tuple(x, s, y, t)
}

// The counts of a tuple, with one place more.
fn with_place(core: &[u64], p: u64, t: Counts) -> Counts
    requires { (t.sent < 2 ^ 63) × (t.received < 2 ^ 63) }
    ensures { result ≡ with_row t (sends core.now p) (not (sends core.now p)) }
{
    if is_sent(core, p as usize) {
        return Counts {
            sent: t.sent + 1,
            received: t.received,
        };
    }
    Counts {
        sent: t.sent,
        received: t.received + 1,
    }
}

// The places of one tuple: where they end, and whether they are sent and received in different numbers.
#[derive(Clone, Copy)]
struct Group {
    end: usize,
    uneven: bool,
}

// The group that starts at a place.
fn group_from<'a>(
    nr: usize,
    core: &'a [u64],
    round: &'a [u64],
    places: &[u64],
    start: usize,
) -> Group
    requires { (places.now ≡ arranged true nr core.now round.now) × (start < length places.now) × Apart (place_tuple nr core.now round.now) places.now start }
    ensures { GroupAt nr core.now round.now places.now start result.end result.uneven }
{
    let first = places[start];
    let mut t = Counts {
        sent: 0,
        received: 0,
    };
    for end in start..places.len() {
        if !same_places(nr, core, round, first, places[end]) {
            return Group {
                end,
                uneven: t.sent != t.received,
            };
        }
        t = with_place(core, places[end], t);
    }
    Group {
        end: places.len(),
        uneven: t.sent != t.received,
    }
}

// The least place whose tuple is unbalanced: the first of its group is the least of it.
pub fn first_unbalanced<'a>(
    nr: usize,
    core: &'a [u64],
    round: &'a [u64],
    places: &[u64],
) -> Option<usize>
    requires { places.now ≡ arranged true nr core.now round.now }
    ensures { result ≡ place_of (first_at (bad_place nr core.now round.now) (place_count core.now round.now)) }
{
    let n = place_count(core, round);
    let mut least = n;
    let mut start: usize = 0;
    // each turn goes on where its group ends: no range fits
    while start < places.len() {
        let g = group_from(nr, core, round, places, start);
        least = lower(least, places[start] as usize, g.uneven);
        start = g.end;
    }
    if least < n {
        return Some(least);
    }
    None
}

// Whether two core rows have one timestamp.
fn same_stamps(core: &[u64], q: usize, r: usize) -> bool
    requires { (q < rows core_layout core.now) × (r < rows core_layout core.now) }
    ensures { result ≡ same_stamp (row core_layout core.now q) (row core_layout core.now r) }
{
    let x = row_at(core, Table::Core, q);
    let y = row_at(core, Table::Core, r);
    same_stamp(x, y)
}

// The first active core row with the timestamp of an earlier one: the place in front of it has that timestamp too.
pub fn first_repeated(core: &[u64], places: &[u64]) -> Option<usize>
    requires { (nr : ℕ) × (round : List ℕ) × (places.now ≡ arranged false nr core.now round) }
    ensures { result ≡ place_of (first_repeat core_layout core.now) }
{
    let rows = core.len() / keccak::NUM_COLUMNS;
    let mut least = rows;
    for k in 1..places.len() {
        let q = places[k - 1] as usize / 2;
        let r = places[k] as usize / 2;
        let repeats = same_stamps(core, q, r);
        least = lower(least, r, repeats);
    }
    if least < rows {
        return Some(least);
    }
    None
}
