// tables/is_wh.rs: the rows of the IS_WH table for a list of keys, each distinct key with how often it occurs.
#![tactic(auto)]

ghost use Rattle.std.specs.Prelude.{◌≡◌, ◌+◌, ◌*◌, ◌/◌, ◌^◌, ◌<◌, ◌≤◌, min, [], ◌∷◌, length, take, drop};
ghost use Rattle.std.proofs.Math.Option.{none};
ghost use Rattle.std.proofs.lemmas.List.Edits.{sets};
ghost use Rattle.lists.specs.Tab.{word};
ghost use Rattle.lists.specs.First.{first_at};
ghost use Rattle.sort.specs.Sorted.{sorted, Ascends, copies};
ghost use Rattle.is_wh_rows.specs.Loads.{joins, joined, loads, weight, total, codes_in, rows_in};
ghost use Rattle.is_wh_rows.specs.Rows.{rows_needed, key_rows, row_of, flat};
ghost use Rattle.is_wh_rows.specs.Lists.{bad_at};
ghost use Rattle.is_wh_rows.specs.Calls.{dedup_answer, loads_after, rows_after};

use answer::Refusal;
use checks::check_keys;
use sort::sort;

pub mod checks;

// The most that one row counts: 2^20 - 1.
const MU_MAX: usize = 1048575;

// How many rows a key has that occurs n times.
fn rows_needed(n: usize) -> usize
    requires { n < 2 ^ 63 }
    ensures { result ≡ rows_needed n }
{
    (n + 1048574) / MU_MAX
}

// What a row counts where `left` are not yet counted.
fn row_count(left: usize) -> usize
    ensures { result ≡ min 1048575 left }
{
    if left < MU_MAX { left } else { MU_MAX }
}

// Whether the last of m loads has this code and room for one more.
fn joins_last(loads: &[u64], m: usize, code: u64) -> bool
    requires { m ≤ length loads.now }
    ensures { result ≡ joins (take m loads.now) code }
{
    if m == 0 {
        return false;
    }
    let last = loads[m - 1];
    if last / 65536 != code {
        return false;
    }
    last % 65536 < 65535
}

// One key more, behind m loads: how many loads there are then.
fn put_load(out: &mut [u64], m: usize, code: u64) -> usize
    requires { (m < length out.old) × (code < 2 ^ 48) }
    ensures number { result ≡ length (joined (take m out.old) code) }
    ensures loads { out.new ≡ sets out.old 0 (joined (take m out.old) code) }
{
    if joins_last(out, m, code) {
        let count = out[m - 1] % 65536 + 1;
        out[m - 1] = code * 65536 + count;
        return m;
    }
    out[m] = code * 65536;
    m + 1
}

// The loads of the keys, and how many.
fn put_loads(keys: &[u64], out: &mut [u64]) -> usize
    requires { (length keys.now / 2 ≤ length out.old) × (first_at (bad_at 2 keys.now) (length keys.now) ≡ none) }
    ensures number { result ≡ length (loads keys.now) }
    ensures loads { out.new ≡ sets out.old 0 (loads keys.now) }
{
    let n = keys.len() / 2;
    let mut m: usize = 0;
    for i in 0..n {
        m = put_load(out, m, keys[2 * i] * 65536 + keys[2 * i + 1]);
    }
    m
}

// The loads of the keys in ascending order, in both slices, and how many.
fn sort_loads(keys: &[u64], out: &mut [u64], spare: &mut [u64]) -> usize
    requires { (length keys.now / 2 ≤ length out.old) × (length keys.now / 2 ≤ length spare.old) × (first_at (bad_at 2 keys.now) (length keys.now) ≡ none) }
    ensures number { result ≡ length (loads keys.now) }
    ensures loads { out.new ≡ sets out.old 0 (sorted (loads keys.now)) }
    ensures spare { spare.new ≡ sets spare.old 0 (sorted (loads keys.now)) }
{
    let m = put_loads(keys, out);
    sort(&mut out[..m], spare);
    m
}

// A run of loads of one code: where it ends, and how many keys it holds.
#[derive(Clone, Copy)]
struct Run {
    end: usize,
    count: usize,
}

// The run of the load at `from`.
fn run_from(words: &[u64], from: usize) -> Run
    requires { (from < length words.now) × Ascends (drop from words.now) × (total words.now < 2 ^ 63) }
    ensures { (result.end ≡ from + copies (word words.now from / 65536) (codes_in (drop from words.now))) × (result.count ≡ weight (word words.now from / 65536) (drop from words.now)) }
{
    let x = words[from] / 65536;
    let mut count: usize = 0;
    for k in from..words.len() {
        if words[k] / 65536 != x {
            return Run { end: k, count };
        }
        count += (words[k] % 65536) as usize + 1;
    }
    Run {
        end: words.len(),
        count,
    }
}

// One row.
fn put_row(rows: &mut [u64], at: usize, code: u64, n: usize)
    requires { at + 3 ≤ length rows.old }
    ensures { rows.new ≡ sets rows.old at (flat (row_of code n ∷ [])) }
{
    rows[at] = code / 65536;
    rows[at + 1] = code % 65536;
    rows[at + 2] = n as u64;
}

// The rows of a key that occurs n times, and how many.
fn put_key_rows(rows: &mut [u64], at: usize, code: u64, n: usize) -> usize
    requires { (n < 2 ^ 63) × (at + 3 * rows_needed n ≤ length rows.old) }
    ensures number { result ≡ rows_needed n }
    ensures words { rows.new ≡ sets rows.old at (flat (key_rows code n)) }
{
    let needed = rows_needed(n);
    for j in 0..needed {
        let count = row_count(n - j * MU_MAX);
        put_row(rows, at + 3 * j, code, count);
    }
    needed
}

// The rows of loads that ascend, and how many.
fn put_rows(words: &[u64], rows: &mut [u64]) -> usize
    requires { Ascends words.now × (total words.now < 2 ^ 63) × (3 * length (rows_in words.now) ≤ length rows.old) }
    ensures number { result ≡ length (rows_in words.now) }
    ensures words { rows.new ≡ sets rows.old 0 (flat (rows_in words.now)) }
{
    let mut i: usize = 0;
    let mut count: usize = 0;
    // no `for`: a turn goes on behind the run that it wrote
    while i < words.len() {
        let run = run_from(words, i);
        let added = put_key_rows(rows, 3 * count, words[i] / 65536, run.count);
        count += added;
        i = run.end;
    }
    count
}

// The rows of a list of keys, three words a row: the key's word and half, and how often it occurs. `codes` and `spare`
// are memory to sort in, one word a key: what is sorted are loads (specs/Loads.antt).
pub fn dedup_is_wh_rows(
    keys: &[u64],
    codes: &mut [u64],
    spare: &mut [u64],
    rows: &mut [u64],
) -> Result<u64, Refusal>
    ensures answer { result ≡ dedup_answer (length codes.old) (length spare.old) (length rows.old) keys.now }
    ensures codes { codes.new ≡ loads_after (length codes.old) (length spare.old) (length rows.old) keys.now codes.old }
    ensures spare { spare.new ≡ loads_after (length codes.old) (length spare.old) (length rows.old) keys.now spare.old }
    ensures rows { rows.new ≡ rows_after (length codes.old) (length spare.old) keys.now rows.old }
{
    let room = codes.len();
    check_keys(keys, room, spare.len(), rows.len())?;
    let m = sort_loads(keys, codes, spare);
    let count = put_rows(&codes[..m], rows);
    Ok(count as u64)
}
