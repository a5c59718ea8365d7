// The checks of a list of keys, and of a list of rows.
ghost use Rattle.std.specs.Prelude.{◌≡◌, ◌*◌, ◌≤◌, ◌<◌, length};
ghost use Rattle.lists.specs.First.{first_at, place_of};
ghost use Rattle.answer.specs.Refusal.{accepted, answer_of, too_short};
ghost use Rattle.is_wh_rows.specs.Lists.{limit_of, bad_at, MAX-KEYS, too_many_in, ragged_in, rows_refusal};
ghost use Rattle.is_wh_rows.specs.Calls.{dedup_refusal};

use answer::Refusal;

const KEY_SIZE: usize = 2;

pub const ROW_SIZE: usize = 3;

pub const MAX_KEYS: usize = 2236962125;

// What a part of a key or of a row has to be below.
fn limit_of(part: usize) -> u64
    ensures { result ≡ limit_of part }
{
    if part == 0 {
        return 4294967296;
    }
    if part == 1 {
        return 65536;
    }
    1048576
}

// The first word of a list that is not below its limit.
fn first_bad(list: &[u64], size: usize) -> Option<usize>
    requires { 0 < size }
    ensures { result ≡ place_of (first_at (bad_at size list.now) (length list.now)) }
{
    for k in 0..list.len() {
        let limit = limit_of(k % size);
        if limit <= list[k] {
            return Some(k);
        }
    }
    None
}

// How many entries a list has, and that they are whole.
fn check_entries(list: &[u64], size: usize) -> Result<(), Refusal>
    requires { 0 < size }
    ensures { result ≡ answer_of (too_many_in size list.now (ragged_in size list.now accepted)) }
{
    if list.len() / size > MAX_KEYS {
        return Err(Refusal::PastEnd(MAX_KEYS as u64 + 1));
    }
    if list.len() % size != 0 {
        return Err(Refusal::NotWhole(2));
    }
    Ok(())
}

// The room for n keys in the three slices that are lent.
fn check_room(n: usize, codes: usize, spare: usize, rows: usize) -> Result<(), Refusal>
    requires { n ≤ MAX-KEYS }
    ensures { result ≡ answer_of (too_short codes n (too_short spare n (too_short rows (3 * n) accepted))) }
{
    if codes < n {
        return Err(Refusal::TooShort(n as u64));
    }
    if spare < n {
        return Err(Refusal::TooShort(n as u64));
    }
    if rows < ROW_SIZE * n {
        return Err(Refusal::TooShort((ROW_SIZE * n) as u64));
    }
    Ok(())
}

// The checks of `dedup_is_wh_rows`.
pub fn check_keys(keys: &[u64], codes: usize, spare: usize, rows: usize) -> Result<(), Refusal>
    ensures { result ≡ answer_of (dedup_refusal codes spare rows keys.now) }
{
    check_entries(keys, KEY_SIZE)?;
    check_room(keys.len() / KEY_SIZE, codes, spare, rows)?;
    if let Some(k) = first_bad(keys, KEY_SIZE) {
        return Err(Refusal::NotElement(k as u64));
    }
    Ok(())
}

// The checks of a call that takes a list of rows and a slice.
pub fn check_rows(rows: &[u64], room: usize, needed: usize) -> Result<(), Refusal>
    ensures { result ≡ answer_of (rows_refusal room needed rows.now accepted) }
{
    check_entries(rows, ROW_SIZE)?;
    if room < needed {
        return Err(Refusal::TooShort(needed as u64));
    }
    if let Some(k) = first_bad(rows, ROW_SIZE) {
        return Err(Refusal::NotElement(k as u64));
    }
    Ok(())
}
