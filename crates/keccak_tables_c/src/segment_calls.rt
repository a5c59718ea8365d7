// What a segment's lookups add to the counters of the bitwise table, and a look at it beforehand.
ghost use Rattle.std.specs.Prelude.{◌≡◌, length};
ghost use Rattle.answer.specs.Refusal.{answer_of};
ghost use Rattle.segment_counts.specs.Segment.{charge_refusal, charge_after, look_refusal, look_copy_after, look_out_after};
ghost use Rattle.flat.specs.Flat.{flat_answer};

use flat::FlatAnswer;

#[unsafe(no_mangle)]
pub extern "C" fn keccak_tables_charge(
    nr: u64,
    floor: u64,
    shipped: bool,
    ops: &[u64],
    counters: &mut [u64],
) -> FlatAnswer
    ensures answer { result ≡ flat_answer (answer_of (charge_refusal nr floor ops.now counters.old)) }
    ensures words { counters.new ≡ charge_after nr floor shipped ops.now counters.old }
{
    keccak_tables::segment_calls::keccak_tables_charge(nr, floor, shipped, ops, counters)
}

#[unsafe(no_mangle)]
pub extern "C" fn keccak_tables_look(
    nr: u64,
    floor: u64,
    shipped: bool,
    ops: &[u64],
    counters: &[u64],
    copy: &mut [u64],
    out: &mut [u64],
) -> FlatAnswer
    ensures answer { result ≡ flat_answer (answer_of (look_refusal nr floor ops.now counters.now (length copy.old) (length out.old))) }
    ensures copied { copy.new ≡ look_copy_after nr floor shipped ops.now counters.now copy.old (length out.old) }
    ensures words { out.new ≡ look_out_after nr floor shipped ops.now counters.now (length copy.old) out.old }
{
    keccak_tables::segment_calls::keccak_tables_look(nr, floor, shipped, ops, counters, copy, out)
}
