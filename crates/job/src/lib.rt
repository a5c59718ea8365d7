// Segments, then the job: the verdicts on each segment's two tables, and then that on all core rows and all round rows, as a report of
// four words each (specs/Report.antt).
#![tactic(auto)]

ghost use Rattle.std.specs.Prelude.{◌≡◌, ◌+◌, ◌*◌, ◌≤◌, length};
ghost use Rattle.std.proofs.lemmas.List.Edits.{sets};
ghost use Rattle.lists.specs.Tab.{table_of};
ghost use Rattle.answer.specs.Refusal.{overwrite, answer_of};
ghost use Rattle.verdict.specs.Kind.{rows};
ghost use Rattle.verdict.specs.Verdict.{verdict_words};
ghost use Rattle.verdict.specs.CoreAndRound.{verdict_at};
ghost use Rattle.judge_scan.specs.Tables.{layout_of};
ghost use Rattle.job.specs.Report.{VERDICT-WORDS, segment_count, rows_from, Split, Checked, verdict_on, report_words, job_refusal, job_after};
ghost use Rattle.job.specs.Within.{job_within_refusal, job_within_after, job_scratch_after};

use answer::Refusal;
use bits::put_zeros;
use checks::{COUNT_WORDS, VERDICT_WORDS, check_job, check_job_within};
use judge;
use judge_scan::width_of;
use judge_within;
use judge_within::places::place_count;
use judge_words::verdict_words;
use lists::put_words;
use verdict::{Table, Verdict};

pub mod checks;

// The verdict on two tables that pass the checks: by sorted places where both slices have room for them, else with no memory.
fn verdict_by<'a>(
    nr: usize,
    core: &'a [u64],
    round: &'a [u64],
    scratch: &mut [u64],
    spare: &mut [u64],
) -> Verdict
    requires { (nr ≤ 24) × Checked core.now round.now }
    ensures { result ≡ verdict_at nr core.now round.now }
{
    let n = place_count(core, round);
    if scratch.len() < n {
        return judge::from_core_value(nr, core, round);
    }
    if spare.len() < n {
        return judge::from_core_value(nr, core, round);
    }
    judge_within::from_core_value(nr, core, round, scratch, spare)
}

// The verdict on two tables that pass the checks, into the report.
fn put_verdict<'a>(
    nr: usize,
    core: &'a [u64],
    round: &'a [u64],
    report: &mut [u64],
    at: usize,
    scratch: &mut [u64],
    spare: &mut [u64],
)
    requires { (nr ≤ 24) × Checked core.now round.now × (at + VERDICT-WORDS ≤ length report.old) }
    ensures { report.new ≡ sets report.old at (verdict_words (verdict_at nr core.now round.now)) }
{
    let words = verdict_words(verdict_by(nr, core, round, scratch, spare));
    put_words(report, at, &words, VERDICT_WORDS);
}

// n rows of a table, from row a on, as the part of the slice that they are.
fn rows_from(words: &[u64], table: Table, a: usize, n: usize) -> &[u64]
    requires { a + n ≤ rows (layout_of table) words.now }
    ensures { result.now ≡ rows_from (layout_of table) words.now a n }
{
    let width = width_of(table);
    let start = a * width;
    let end = start + n * width;
    &words[start..end]
}

// The verdicts on the segments, each on the part of the two tables that it is.
fn put_segments<'a>(
    nr: usize,
    core: &'a [u64],
    round: &'a [u64],
    counts: &[u64],
    report: &mut [u64],
    scratch: &mut [u64],
    spare: &mut [u64],
)
    requires { (nr ≤ 24) × Checked core.now round.now × Split core.now round.now counts.now × (segment_count counts.now * VERDICT-WORDS ≤ length report.old) }
    ensures { report.new ≡ sets report.old 0 (table_of (segment_count counts.now) VERDICT-WORDS (λ i. verdict_words (verdict_on nr core.now round.now counts.now i))) }
{
    let n = counts.len() / COUNT_WORDS;
    let mut a: usize = 0;
    let mut b: usize = 0;
    for i in 0..n {
        let c = counts[i * COUNT_WORDS] as usize;
        let d = counts[i * COUNT_WORDS + 1] as usize;
        let x = rows_from(core, Table::Core, a, c);
        let y = rows_from(round, Table::Round, b, d);
        put_verdict(nr, x, y, report, i * VERDICT_WORDS, scratch, spare);
        a += c;
        b += d;
    }
}

// The verdict on each segment, and then that on all of them.
fn put_report<'a>(
    nr: usize,
    core: &'a [u64],
    round: &'a [u64],
    counts: &[u64],
    report: &mut [u64],
    scratch: &mut [u64],
    spare: &mut [u64],
)
    requires { (nr ≤ 24) × Checked core.now round.now × Split core.now round.now counts.now × ((segment_count counts.now + 1) * VERDICT-WORDS ≤ length report.old) }
    ensures { report.new ≡ overwrite (report_words nr core.now round.now counts.now) report.old }
{
    put_segments(nr, core, round, counts, report, scratch, spare);
    put_verdict(
        nr,
        core,
        round,
        report,
        counts.len() / COUNT_WORDS * VERDICT_WORDS,
        scratch,
        spare,
    );
}

// The report on a job of nr rounds, with no memory for places.
pub fn job<'a>(
    nr: u64,
    core: &'a [u64],
    round: &'a [u64],
    counts: &[u64],
    report: &mut [u64],
) -> Result<(), Refusal>
    ensures answer { result ≡ answer_of (job_refusal nr core.now round.now counts.now (length report.old)) }
    ensures words { report.new ≡ job_after nr core.now round.now counts.now report.old }
{
    check_job(nr, core, round, counts, report.len())?;
    let mut scratch = [0u64; 0];
    let mut spare = [0u64; 0];
    put_report(
        nr as usize,
        core,
        round,
        counts,
        report,
        &mut scratch,
        &mut spare,
    );
    Ok(())
}

// The same report in lent memory. The words of both slices that were used are zeros afterwards.
pub fn job_within<'a>(
    nr: u64,
    core: &'a [u64],
    round: &'a [u64],
    counts: &[u64],
    report: &mut [u64],
    scratch: &mut [u64],
    spare: &mut [u64],
) -> Result<(), Refusal>
    ensures answer { result ≡ answer_of (job_within_refusal nr core.now round.now counts.now (length report.old) (length scratch.old) (length spare.old)) }
    ensures words { report.new ≡ job_within_after nr core.now round.now counts.now (length scratch.old) (length spare.old) report.old }
    ensures scratch { scratch.new ≡ job_scratch_after nr core.now round.now counts.now (length report.old) (length scratch.old) (length spare.old) scratch.old }
    ensures spare { spare.new ≡ job_scratch_after nr core.now round.now counts.now (length report.old) (length scratch.old) (length spare.old) spare.old }
{
    check_job_within(
        nr,
        core,
        round,
        counts,
        report.len(),
        scratch.len(),
        spare.len(),
    )?;
    let n = place_count(core, round);
    put_report(
        nr as usize,
        core,
        round,
        counts,
        report,
        &mut scratch[..n],
        &mut spare[..n],
    );
    put_zeros(scratch, 0, n);
    put_zeros(spare, 0, n);
    Ok(())
}
