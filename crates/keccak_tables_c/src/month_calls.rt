// The month in whole numbers.
ghost use Rattle.std.specs.Prelude.{◌≡◌, length};
ghost use Rattle.answer.specs.Refusal.{answer_of};
ghost use Rattle.month.specs.Month.{month_refusal, month_after};
ghost use Rattle.flat.specs.Flat.{flat_answer};

use flat::FlatAnswer;

#[unsafe(no_mangle)]
pub extern "C" fn keccak_tables_month(
    nr: u64,
    floor: u64,
    counts: &[u64],
    out: &mut [u64],
) -> FlatAnswer
    ensures answer { result ≡ flat_answer (answer_of (month_refusal nr floor counts.now (length out.old))) }
    ensures words { out.new ≡ month_after nr floor counts.now out.old }
{
    keccak_tables::month_calls::keccak_tables_month(nr, floor, counts, out)
}
