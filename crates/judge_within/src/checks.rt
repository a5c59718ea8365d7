// The checks of the verdict in lent memory.
ghost use Rattle.std.specs.Prelude.{◌≡◌};
ghost use Rattle.answer.specs.Refusal.{accepted, too_short, answer_of};
ghost use Rattle.judge_within.specs.Within.{within_refusal};

use super::places::place_count;
use answer::{Refusal, check_rounds};
use judge::checks::{check_rows, check_words};

// Both slices have room for n places.
fn check_room(n: usize, scratch: usize, spare: usize) -> Result<(), Refusal>
    ensures { result ≡ answer_of (too_short scratch n (too_short spare n accepted)) }
{
    if scratch < n {
        return Err(Refusal::TooShort(n as u64));
    }
    if spare < n {
        return Err(Refusal::TooShort(n as u64));
    }
    Ok(())
}

// The number of rounds, whole rows, room, then the words.
pub fn check_within(
    nr: u64,
    core: &[u64],
    round: &[u64],
    scratch: usize,
    spare: usize,
) -> Result<(), Refusal>
    ensures { result ≡ answer_of (within_refusal nr core.now round.now scratch spare) }
{
    check_rounds(nr)?;
    check_rows(core, round)?;
    check_room(place_count(core, round), scratch, spare)?;
    check_words(core, round)
}
