// The bitwise table whole, and its counters: filled in, added to, added to one another.
ghost use Rattle.std.specs.Prelude.{◌≡◌};
ghost use Rattle.answer.specs.Refusal.{answer_of};
ghost use Rattle.bitwise.specs.Counters.{bump_refusal, bump_n_after, merge_refusal, merge_after};
ghost use Rattle.bitwise.specs.Lookups.{add_ops_refusal, add_ops_after, update_refusal, update_after};
ghost use Rattle.bitwise.specs.Table.{trace_refusal, trace_after, fill_refusal, fill_after};
ghost use Rattle.flat.specs.Flat.{flat_answer};

use flat::FlatAnswer;

#[unsafe(no_mangle)]
pub extern "C" fn keccak_tables_generate_bitwise_trace(table: &mut [u64]) -> FlatAnswer
    ensures answer { result ≡ flat_answer (answer_of (trace_refusal table.old)) }
    ensures words { table.new ≡ trace_after table.old }
{
    keccak_tables::counters::keccak_tables_generate_bitwise_trace(table)
}

#[unsafe(no_mangle)]
pub extern "C" fn keccak_tables_fill_multiplicities(
    counters: &[u64],
    table: &mut [u64],
) -> FlatAnswer
    ensures answer { result ≡ flat_answer (answer_of (fill_refusal counters.now table.old)) }
    ensures words { table.new ≡ fill_after counters.now table.old }
{
    keccak_tables::counters::keccak_tables_fill_multiplicities(counters, table)
}

#[unsafe(no_mangle)]
pub extern "C" fn keccak_tables_bump_n(
    counters: &mut [u64],
    kind: usize,
    x: u8,
    y: u8,
    z: u8,
    n: u64,
) -> FlatAnswer
    ensures answer { result ≡ flat_answer (answer_of (bump_refusal counters.old kind x y z)) }
    ensures words { counters.new ≡ bump_n_after counters.old kind x y z n }
{
    keccak_tables::counters::keccak_tables_bump_n(counters, kind, x, y, z, n)
}

#[unsafe(no_mangle)]
pub extern "C" fn keccak_tables_merge(counters: &mut [u64], other: &[u64]) -> FlatAnswer
    ensures answer { result ≡ flat_answer (answer_of (merge_refusal counters.old other.now)) }
    ensures words { counters.new ≡ merge_after counters.old other.now }
{
    keccak_tables::counters::keccak_tables_merge(counters, other)
}

#[unsafe(no_mangle)]
pub extern "C" fn keccak_tables_add_ops(counters: &mut [u64], ops: &[u64]) -> FlatAnswer
    ensures answer { result ≡ flat_answer (answer_of (add_ops_refusal counters.old ops.now)) }
    ensures words { counters.new ≡ add_ops_after counters.old ops.now }
{
    keccak_tables::counters::keccak_tables_add_ops(counters, ops)
}

#[unsafe(no_mangle)]
pub extern "C" fn keccak_tables_bitwise_update_multiplicities(
    table: &mut [u64],
    ops: &[u64],
) -> FlatAnswer
    ensures answer { result ≡ flat_answer (answer_of (update_refusal table.old ops.now)) }
    ensures words { table.new ≡ update_after table.old ops.now }
{
    keccak_tables::counters::keccak_tables_bitwise_update_multiplicities(table, ops)
}
