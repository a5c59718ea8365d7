// What the end of an operation file makes of its reader: the sums that `tally` prints, or a refusal.
#![tactic(auto)]

ghost use Rattle.std.specs.Prelude.{◌≡◌, ℕ, ◌*◌, ◌^◌, ◌<◌, ◌≤◌};
ghost use Rattle.keccak_rnd.specs.Row.{round_height};
ghost use Rattle.op_file.specs.File.{told};
ghost use Rattle.op_file.specs.Reader.{padding_sum, counts_of, end_of, finish_of};

use answer::{MAX_OPS, Refusal, check_floor};
use keccak_rnd::{ARE_BYTES_PER_ROW, ROUNDS};
use op_file::{Reading, Segments, Sums};
use op_reader::records_read;
use operations::table_height;

// What the padding rows of a round table of `rows` rows send; those of an empty one only where it is shipped.
fn padding(shipped: bool, n: u64, rows: u64) -> u64
    requires { (n ≤ 89478485) × (n * 24 ≤ rows) × (rows ≤ 2 ^ 33) }
    ensures { ((floor : ℕ) → rows ≡ round_height 24 floor n → result ≡ padding_sum floor shipped n) × (result < 2 ^ 41) }
{
    let sent = (rows - n * (ROUNDS as u64)) * (ARE_BYTES_PER_ROW as u64);
    if shipped {
        return sent;
    }
    if n == 0 {
        return 0;
    }
    sent
}

// What is told of the segment numbers: both, or nothing.
fn tell(s: Segments) -> Segments
    ensures { result ≡ told s }
{
    if s.shown == 0 {
        return Segments {
            shown: 0,
            least: 0,
            greatest: 0,
        };
    }
    s
}

// The sums of n operations with these segment numbers, where `left` records are left out.
fn sum_up(floor: usize, shipped: bool, n: u64, segments: Segments, left: u64) -> Sums
    requires { (floor ≤ 65536) × (n ≤ 89478485) }
    ensures { result ≡ counts_of floor shipped n segments left }
{
    let core_rows = table_height(floor, n as usize);
    let round_rows = table_height(floor, n as usize * ROUNDS) as u64;
    Sums {
        ops: n,
        core_rows: core_rows as u64,
        round_rows,
        byte_alu: 19393 * n,
        are_bytes: 5284 * n + padding(shipped, n, round_rows),
        keccak_rc: (ROUNDS as u64) * n,
        is_halfword: 25 * n,
        is_wh: 25 * n,
        memw: 26 * n,
        ecall: n,
        segments,
        unaligned: left,
    }
}

// What the end of the file makes of a reader, where the tables of an empty file are shipped or not.
#[tactic(auto, unfolding(op_file::specs::Reader::end_of), using(op_file::proofs::Laws::count_room))]
fn ended(floor: usize, shipped: bool, c: Result<Reading, Refusal>) -> Result<Sums, Refusal>
    requires { floor ≤ 65536 }
    ensures { result ≡ end_of floor shipped c }
{
    let at = c?;
    let w = at.whole;
    let records = records_read(w);
    if records > MAX_OPS {
        return Err(Refusal::PastEnd(MAX_OPS + 1));
    }
    if at.begun.at == 0 {
        return Ok(sum_up(floor, shipped, w.n, tell(w.segments), w.unaligned));
    }
    if records >= MAX_OPS {
        return Err(Refusal::PastEnd(MAX_OPS + 1));
    }
    Err(Refusal::BadRecord(w.start))
}

// The same where both tables have `floor` rows or more; the floor is checked first.
pub fn finish(floor: u64, shipped: bool, c: Result<Reading, Refusal>) -> Result<Sums, Refusal>
    ensures { result ≡ finish_of floor shipped c }
{
    check_floor(floor)?;
    ended(floor as usize, shipped, c)
}
