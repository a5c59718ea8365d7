// The look of a register: what its charge would add, the largest counters after it, and its ledger as it would then stand.
ghost use Rattle.std.specs.Prelude.{◌≡◌, ℕ, ◌+◌, ◌*◌, ◌≤◌, ◌<◌, length};
ghost use Rattle.lists.specs.Tab.{word};
ghost use Rattle.field.specs.Field.{p};
ghost use Rattle.field.specs.Elements.{ElementRow};
ghost use Rattle.answer.specs.Limits.{MAX-OPS};
ghost use Rattle.answer.specs.Refusal.{overwrite, answer_of};
ghost use Rattle.bitwise.specs.Columns.{NUM-COUNTERS};
ghost use Rattle.bitwise.specs.Charge.{charged_words};
ghost use Rattle.keccak.specs.Row.{LAST-ADDRESS};
ghost use Rattle.keccak.specs.Refusals.{op_count, address_at};
ghost use Rattle.segment_counts.specs.Segment.{list_charged};
ghost use Rattle.registers.specs.Registers.{REGISTER-LOOK-WORDS, ledger_of, register_look_words, register_look_refusal, register_look_copy_after, register_look_out_after};

use super::charge_ledger;
use super::checks::check_register;
use answer::Refusal;
use bitwise::NUM_LOOKUP_TYPES;
use keccak::OP_WORDS;
use lists::put_part;
use segment_counts::beforehand::{fill_look, kind_sums};
use segment_counts::checks::{LOOK_WORDS, Room, first_short};

// The words of its answer.
pub const REGISTER_LOOK_WORDS: usize = 30;

// The copy, charged, and the answer, of a look that passed the checks: the ledger is copied behind the twenty words, and charged there.
fn fill_register_look(
    nr: usize,
    floor: usize,
    shipped: bool,
    register: usize,
    ops: &[u64],
    counters: &[u64],
    ledgers: &[u64],
    copy: &mut [u64],
    out: &mut [u64],
)
    requires { (nr ≤ 24) × (floor ≤ 65536) × (op_count ops.now ≤ MAX-OPS) × ElementRow NUM-COUNTERS counters.now × ((i : ℕ) → i < op_count ops.now → address_at ops.now i ≤ LAST-ADDRESS) × (NUM-COUNTERS ≤ length copy.old) × (REGISTER-LOOK-WORDS ≤ length out.old) × (register * 10 + 10 ≤ length ledgers.now) × ElementRow 10 (ledger_of ledgers.now register) }
    ensures copied { copy.new ≡ overwrite (charged_words counters.now (list_charged nr floor shipped ops.now)) copy.old }
    ensures words { out.new ≡ overwrite (register_look_words register counters.now ledgers.now (list_charged nr floor shipped ops.now)) out.old }
{
    fill_look(nr, floor, shipped, ops, counters, copy, out);
    let at = register * NUM_LOOKUP_TYPES;
    put_part(out, LOOK_WORDS, ledgers, at, NUM_LOOKUP_TYPES);
    let sums = kind_sums(nr, floor, shipped, ops.len() / OP_WORDS);
    charge_ledger(out, LOOK_WORDS, sums);
}

// Charge a copy of the counters and a copy of the register's ledger, and tell what a look tells and the ledger.
pub fn look(
    nr: u64,
    floor: u64,
    shipped: bool,
    register: u64,
    ops: &[u64],
    counters: &[u64],
    ledgers: &[u64],
    copy: &mut [u64],
    out: &mut [u64],
) -> Result<(), Refusal>
    ensures answer { result ≡ answer_of (register_look_refusal nr floor register ops.now counters.now ledgers.now (length copy.old) (length out.old)) }
    ensures copied { copy.new ≡ register_look_copy_after nr floor shipped register ops.now counters.now ledgers.now copy.old (length out.old) }
    ensures words { out.new ≡ register_look_out_after nr floor shipped register ops.now counters.now ledgers.now (length copy.old) out.old }
{
    let Room { room, needed } = first_short(
        counters.len(),
        copy.len(),
        out.len(),
        REGISTER_LOOK_WORDS,
    );
    check_register(nr, floor, register, ops, counters, ledgers, room, needed)?;
    fill_register_look(
        nr as usize,
        floor as usize,
        shipped,
        register as usize,
        ops,
        counters,
        ledgers,
        copy,
        out,
    );
    Ok(())
}
