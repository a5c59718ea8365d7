// Charges of several registers to one table of counters, each with a ledger of its own, and a look at one beforehand.
ghost use Rattle.std.specs.Prelude.{◌≡◌, length};
ghost use Rattle.answer.specs.Refusal.{answer_of};
ghost use Rattle.registers.specs.Registers.{register_refusal, register_counters_after, register_ledgers_after, register_look_refusal, register_look_copy_after, register_look_out_after};
ghost use Rattle.flat.specs.Flat.{flat_answer};

use flat::FlatAnswer;

#[unsafe(no_mangle)]
pub extern "C" fn keccak_tables_register_charge(
    nr: u64,
    floor: u64,
    shipped: bool,
    register: u64,
    ops: &[u64],
    counters: &mut [u64],
    ledgers: &mut [u64],
) -> FlatAnswer
    ensures answer { result ≡ flat_answer (answer_of (register_refusal nr floor register ops.now counters.old ledgers.old)) }
    ensures counted { counters.new ≡ register_counters_after nr floor shipped register ops.now counters.old ledgers.old }
    ensures added { ledgers.new ≡ register_ledgers_after nr floor shipped register ops.now counters.old ledgers.old }
{
    keccak_tables::register_calls::keccak_tables_register_charge(
        nr, floor, shipped, register, ops, counters, ledgers,
    )
}

#[unsafe(no_mangle)]
pub extern "C" fn keccak_tables_register_look(
    nr: u64,
    floor: u64,
    shipped: bool,
    register: u64,
    ops: &[u64],
    counters: &[u64],
    ledgers: &[u64],
    copy: &mut [u64],
    out: &mut [u64],
) -> FlatAnswer
    ensures answer { result ≡ flat_answer (answer_of (register_look_refusal nr floor register ops.now counters.now ledgers.now (length copy.old) (length out.old))) }
    ensures copied { copy.new ≡ register_look_copy_after nr floor shipped register ops.now counters.now ledgers.now copy.old (length out.old) }
    ensures words { out.new ≡ register_look_out_after nr floor shipped register ops.now counters.now ledgers.now (length copy.old) out.old }
{
    keccak_tables::register_calls::keccak_tables_register_look(
        nr, floor, shipped, register, ops, counters, ledgers, copy, out,
    )
}
