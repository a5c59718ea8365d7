// The places that are sorted.
ghost use Rattle.std.specs.Prelude.{◌≡◌, ◌≤◌, ◌<◌, length};
ghost use Rattle.std.proofs.lemmas.List.Edits.{sets};
ghost use Rattle.sort_places.specs.Places.{core_places, place_count};
ghost use Rattle.judge_within.specs.Chosen.{chosen};
ghost use Rattle.judge_within.specs.Places.{active_place, sends, wanted, arranged};

use judge_scan::is_active;
use keccak;
use keccak_rnd;
use sort_places::sort_places;
use verdict::Table;

// How many places a core table has: two for each row.
pub fn core_places(core: &[u64]) -> usize
    ensures { result ≡ core_places core.now }
{
    2 * (core.len() / keccak::NUM_COLUMNS)
}

// How many both tables have.
pub fn place_count(core: &[u64], round: &[u64]) -> usize
    ensures { result ≡ place_count core.now round.now }
{
    2 * (core.len() / keccak::NUM_COLUMNS + round.len() / keccak_rnd::NUM_COLUMNS)
}

// Whether a place is sent: the first of a core row, the second of a round row.
pub fn is_sent(core: &[u64], p: usize) -> bool
    ensures { result ≡ sends core.now p }
{
    let n = core_places(core);
    if p < n {
        return p % 2 == 0;
    }
    (p - n) % 2 == 1
}

// Whether the row of a place is active.
fn is_active_place(core: &[u64], round: &[u64], p: usize) -> bool
    requires { p < place_count core.now round.now }
    ensures { result ≡ active_place core.now round.now p }
{
    let n = core_places(core);
    if p < n {
        return is_active(core, Table::Core, p / 2);
    }
    is_active(round, Table::Round, (p - n) / 2)
}

// Whether a place is sorted: its row is active, and for timestamps it is the first of a core row.
fn is_wanted(core: &[u64], round: &[u64], whole: bool, p: usize) -> bool
    requires { p < place_count core.now round.now }
    ensures { result ≡ wanted whole core.now round.now p }
{
    if whole {
        return is_active_place(core, round, p);
    }
    if p >= core_places(core) {
        return false;
    }
    if p % 2 != 0 {
        return false;
    }
    is_active_place(core, round, p)
}

// These places, in their order, and how many.
pub fn put_places(core: &[u64], round: &[u64], whole: bool, out: &mut [u64]) -> usize
    requires { place_count core.now round.now ≤ length out.old }
    ensures number { result ≡ length (chosen (wanted whole core.now round.now) (place_count core.now round.now)) }
    ensures places { out.new ≡ sets out.old 0 (chosen (wanted whole core.now round.now) (place_count core.now round.now)) }
{
    let n = place_count(core, round);
    let mut m: usize = 0;
    for p in 0..n {
        if is_wanted(core, round, whole, p) {
            out[m] = p as u64;
            m += 1;
        }
    }
    m
}

// These places in the order of their tuples, or of their timestamps, in front of `scratch`, and how many. `spare` is
// overwritten from its front by the same.
pub fn arrange<'a>(
    nr: usize,
    core: &'a [u64],
    round: &'a [u64],
    whole: bool,
    scratch: &mut [u64],
    spare: &mut [u64],
) -> usize
    requires { (place_count core.now round.now ≤ length scratch.old) × (place_count core.now round.now ≤ length spare.old) }
    ensures number { result ≡ length (arranged whole nr core.now round.now) }
    ensures scratch { scratch.new ≡ sets scratch.old 0 (arranged whole nr core.now round.now) }
    ensures spare { spare.new ≡ sets spare.old 0 (arranged whole nr core.now round.now) }
{
    let m = put_places(core, round, whole, scratch);
    sort_places(nr, core, round, whole, &mut scratch[..m], spare);
    m
}
