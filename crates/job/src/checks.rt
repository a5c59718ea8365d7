// The checks of the call.
ghost use Rattle.std.specs.Prelude.{◌≡◌, ◌<◌};
ghost use Rattle.answer.specs.Refusal.{accepted, answer_of};
ghost use Rattle.job.specs.Report.{COUNT-WORDS, adds_up, splits, not_job, job_refusal};
ghost use Rattle.job.specs.Within.{job_within_refusal};

use answer::{Refusal, check_rounds};
use judge::checks::{check_rows, check_words};
use judge_within::places::place_count;
use keccak;
use keccak_rnd;

// The words of a segment in the list of counts, and those of a verdict in the report.
pub const COUNT_WORDS: usize = 2;

pub const VERDICT_WORDS: usize = 4;

// Whether the counts k of the segments add up to so many rows. A count above what is left is too much, so no sum wraps.
fn adds_up(counts: &[u64], k: usize, rows: usize) -> bool
    requires { k < COUNT-WORDS }
    ensures { result ≡ adds_up counts.now k rows }
{
    let n = counts.len() / COUNT_WORDS;
    let mut left = rows as u64;
    for i in 0..n {
        let count = counts[i * COUNT_WORDS + k];
        if count > left {
            return false;
        }
        left -= count;
    }
    left == 0
}

// Whether the counts are pairs whose sums are the rows of the two tables.
fn are_split(core: &[u64], round: &[u64], counts: &[u64]) -> bool
    ensures { result ≡ splits core.now round.now counts.now }
{
    if counts.len() % COUNT_WORDS != 0 {
        return false;
    }
    if !adds_up(counts, 0, core.len() / keccak::NUM_COLUMNS) {
        return false;
    }
    adds_up(counts, 1, round.len() / keccak_rnd::NUM_COLUMNS)
}

// The number of rounds, whole rows, the counts and the report's room.
fn check_counts(
    nr: u64,
    core: &[u64],
    round: &[u64],
    counts: &[u64],
    room: usize,
) -> Result<(), Refusal>
    ensures { result ≡ answer_of (not_job nr core.now round.now counts.now room accepted) }
{
    check_rounds(nr)?;
    check_rows(core, round)?;
    if !are_split(core, round, counts) {
        return Err(Refusal::NotWhole(2));
    }
    let needed = (counts.len() / COUNT_WORDS + 1) * VERDICT_WORDS;
    if room < needed {
        return Err(Refusal::TooShort(needed as u64));
    }
    Ok(())
}

// And then every word of both tables.
pub fn check_job(
    nr: u64,
    core: &[u64],
    round: &[u64],
    counts: &[u64],
    room: usize,
) -> Result<(), Refusal>
    ensures { result ≡ answer_of (job_refusal nr core.now round.now counts.now room) }
{
    check_counts(nr, core, round, counts, room)?;
    check_words(core, round)
}

// The same with the room of two lent slices before the words.
pub fn check_job_within(
    nr: u64,
    core: &[u64],
    round: &[u64],
    counts: &[u64],
    room: usize,
    scratch: usize,
    spare: usize,
) -> Result<(), Refusal>
    ensures { result ≡ answer_of (job_within_refusal nr core.now round.now counts.now room scratch spare) }
{
    check_counts(nr, core, round, counts, room)?;
    let n = place_count(core, round);
    if scratch < n {
        return Err(Refusal::TooShort(n as u64));
    }
    if spare < n {
        return Err(Refusal::TooShort(n as u64));
    }
    check_words(core, round)
}
