// The verdict on two tables, and the verdict as a line of text.
ghost use Rattle.std.specs.Prelude.{◌≡◌, length};
ghost use Rattle.verdict.specs.CoreAndRound.{verdict_for};
ghost use Rattle.judge_within.specs.Within.{within_for, within_after};
ghost use Rattle.flat.specs.Flat.{flat_number};
ghost use Rattle.flat.specs.FlatJudged.{flat_verdict};
ghost use Rattle.verdict_line.specs.Line.{line_answer, line_after, within_line_answer, within_line_after, within_line_left};

use flat::{FlatNumber, FlatVerdict};

#[unsafe(no_mangle)]
pub extern "C" fn keccak_tables_verdict(nr: u64, core: &[u64], round: &[u64]) -> FlatVerdict
    ensures { result ≡ flat_verdict (verdict_for nr core.now round.now) }
{
    keccak_tables::judge_calls::keccak_tables_verdict(nr, core, round)
}

#[unsafe(no_mangle)]
pub extern "C" fn keccak_tables_verdict_within<'a>(
    nr: u64,
    core: &'a [u64],
    round: &'a [u64],
    scratch: &mut [u64],
    spare: &mut [u64],
) -> FlatVerdict
    ensures verdict { result ≡ flat_verdict (within_for nr core.now round.now (length scratch.old) (length spare.old)) }
    ensures scratch { scratch.new ≡ within_after nr core.now round.now (length scratch.old) (length spare.old) scratch.old }
    ensures spare { spare.new ≡ within_after nr core.now round.now (length scratch.old) (length spare.old) spare.old }
{
    keccak_tables::judge_calls::keccak_tables_verdict_within(nr, core, round, scratch, spare)
}

#[unsafe(no_mangle)]
pub extern "C" fn keccak_tables_verdict_line(
    nr: u64,
    core: &[u64],
    round: &[u64],
    line: &mut [u8],
) -> FlatNumber
    ensures answer { result ≡ flat_number (line_answer nr core.now round.now line.old) }
    ensures bytes { line.new ≡ line_after nr core.now round.now line.old }
{
    keccak_tables::judge_calls::keccak_tables_verdict_line(nr, core, round, line)
}

#[unsafe(no_mangle)]
pub extern "C" fn keccak_tables_verdict_line_within<'a>(
    nr: u64,
    core: &'a [u64],
    round: &'a [u64],
    line: &mut [u8],
    scratch: &mut [u64],
    spare: &mut [u64],
) -> FlatNumber
    ensures answer { result ≡ flat_number (within_line_answer nr core.now round.now (length line.old) (length scratch.old) (length spare.old)) }
    ensures bytes { line.new ≡ within_line_after nr core.now round.now (length scratch.old) (length spare.old) line.old }
    ensures scratch { scratch.new ≡ within_line_left nr core.now round.now (length line.old) (length scratch.old) (length spare.old) scratch.old }
    ensures spare { spare.new ≡ within_line_left nr core.now round.now (length line.old) (length scratch.old) (length spare.old) spare.old }
{
    keccak_tables::judge_calls::keccak_tables_verdict_line_within(
        nr, core, round, line, scratch, spare,
    )
}
