// tables/keccak.rs, eval: the 52 values of a core row mod P.
#![tactic(auto)]

ghost use Rattle.std.specs.Prelude.{◌≡◌, ◌+◌, ◌*◌, ◌<◌, ◌≤◌, length};
ghost use Rattle.std.proofs.lemmas.List.Edits.{sets};
ghost use Rattle.lists.specs.Tab.{tab};
ghost use Rattle.field.specs.Elements.{ElementRow};
ghost use Rattle.tuple.specs.Values.{values_answer, values_after};
ghost use Rattle.templates.specs.Templates.{from-dword-bl};
ghost use Rattle.add_template.specs.Words.{words_on, Elements};
ghost use Rattle.keccak.specs.Columns.{ADDR, NUM-COLUMNS};
ghost use Rattle.keccak.specs.Values.{NUM-VALUES, top_value, core_value};

use add_template::{AddWords, Pair, add_pair_carry_hi, add_words, emit_add_pair, emit_is_bit};
use answer::Refusal;
use field::Fe;
use keccak::{ADDR, MU, NUM_COLUMNS, NUM_VALUES, STATE_PTR};
use templates::{AddOperand, Cond};
use tuple::check::check_values;

// 0 to 49: the two values of lane i. Where MU is not 0, the carries of addr + 8i = state_ptr[i] are bits.
fn lane_values(row: &[u64], i: usize, addr: AddWords) -> Pair
    requires { ElementRow NUM-COLUMNS row.now × (i < 25) × (addr ≡ words_on row.now (from-dword-bl ADDR)) × Elements addr }
    ensures { (result.low ≡ core_value row.now (2 * i)) × (result.high ≡ core_value row.now (2 * i + 1)) }
{
    let offset = add_words(row, AddOperand::constant((i * 8) as i64));
    let pointer = add_words(row, AddOperand::from_dword_whh(STATE_PTR + i * 3));
    emit_add_pair(row, Cond::When(MU), addr, offset, pointer)
}

// 50: MU times the high carry of the last lane, which is to be 0 where a bit would let it be 1.
fn top_value(row: &[u64], addr: AddWords) -> u64
    requires { ElementRow NUM-COLUMNS row.now × (addr ≡ words_on row.now (from-dword-bl ADDR)) × Elements addr }
    ensures { result ≡ top_value row.now }
{
    let offset = add_words(row, AddOperand::constant(192));
    let pointer = add_words(row, AddOperand::from_dword_whh(STATE_PTR + 24 * 3));
    let carry = add_pair_carry_hi(addr, offset, pointer);
    let product = Fe { value: row[MU] }.mul(carry);
    product.value
}

// The values of the 25 lanes.
fn put_lane_values(row: &[u64], addr: AddWords, out: &mut [u64])
    requires { ElementRow NUM-COLUMNS row.now × (50 ≤ length out.old) × (addr ≡ words_on row.now (from-dword-bl ADDR)) × Elements addr }
    ensures { out.new ≡ sets out.old 0 (tab 50 (core_value row.now)) }
{
    for i in 0..25 {
        let v = lane_values(row, i, addr);
        out[2 * i] = v.low;
        out[2 * i + 1] = v.high;
    }
}

// The 52 values of a row that the checks passed. The address's words are evaluated once.
pub fn put_core_values(row: &[u64], out: &mut [u64])
    requires { ElementRow NUM-COLUMNS row.now × (NUM-VALUES ≤ length out.old) }
    ensures { out.new ≡ sets out.old 0 (tab NUM-VALUES (core_value row.now)) }
{
    let addr = add_words(row, AddOperand::from_dword_bl(ADDR));
    let top = top_value(row, addr);
    let last = emit_is_bit(row, MU, Cond::Always);
    put_lane_values(row, addr, out);
    out[50] = top;
    out[51] = last;
}

// The 52 values of a core row.
pub fn core_values(row: &[u64], out: &mut [u64]) -> Result<(), Refusal>
    ensures answer { result ≡ values_answer NUM-COLUMNS NUM-VALUES row.now out.old }
    ensures words { out.new ≡ values_after NUM-COLUMNS NUM-VALUES core_value row.now out.old }
{
    let room = out.len();
    check_values(NUM_COLUMNS, NUM_VALUES, row, room)?;
    put_core_values(row, out);
    Ok(())
}
