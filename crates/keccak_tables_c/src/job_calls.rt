// The report on a job: the verdicts on its segments, and then that on the job.
ghost use Rattle.std.specs.Prelude.{◌≡◌, length};
ghost use Rattle.answer.specs.Refusal.{answer_of};
ghost use Rattle.job.specs.Report.{job_refusal, job_after};
ghost use Rattle.job.specs.Within.{job_within_refusal, job_within_after, job_scratch_after};
ghost use Rattle.flat.specs.Flat.{flat_answer};

use flat::FlatAnswer;

#[unsafe(no_mangle)]
pub extern "C" fn keccak_tables_job<'a>(
    nr: u64,
    core: &'a [u64],
    round: &'a [u64],
    counts: &[u64],
    report: &mut [u64],
) -> FlatAnswer
    ensures answer { result ≡ flat_answer (answer_of (job_refusal nr core.now round.now counts.now (length report.old))) }
    ensures words { report.new ≡ job_after nr core.now round.now counts.now report.old }
{
    keccak_tables::job_calls::keccak_tables_job(nr, core, round, counts, report)
}

#[unsafe(no_mangle)]
pub extern "C" fn keccak_tables_job_within<'a>(
    nr: u64,
    core: &'a [u64],
    round: &'a [u64],
    counts: &[u64],
    report: &mut [u64],
    scratch: &mut [u64],
    spare: &mut [u64],
) -> FlatAnswer
    ensures answer { result ≡ flat_answer (answer_of (job_within_refusal nr core.now round.now counts.now (length report.old) (length scratch.old) (length spare.old))) }
    ensures words { report.new ≡ job_within_after nr core.now round.now counts.now (length scratch.old) (length spare.old) report.old }
    ensures scratch { scratch.new ≡ job_scratch_after nr core.now round.now counts.now (length report.old) (length scratch.old) (length spare.old) scratch.old }
    ensures spare { spare.new ≡ job_scratch_after nr core.now round.now counts.now (length report.old) (length scratch.old) (length spare.old) spare.old }
{
    keccak_tables::job_calls::keccak_tables_job_within(
        nr, core, round, counts, report, scratch, spare,
    )
}
