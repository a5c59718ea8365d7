// constraints/templates.rs: the ADD template on a row, over words mod P; the words of an operand and IS_BIT are handed
// on.
#![tactic(auto)]

ghost use Rattle.std.specs.Prelude.{◌≡◌, ◌<◌};
ghost use Rattle.field.specs.Field.{p};
ghost use Rattle.templates.specs.Templates.{bit_under};
ghost use Rattle.add_template.specs.Words.{Elements, low_carry, high_carry};
ghost use Rattle.add_template.specs.Conditions.{CondIn, columns_of};

use bit::bit_under;
pub use bit::{emit_is_bit, is_bit};
use field::Fe;
pub use operand::add_words;
use templates::Cond;

pub mod bit;
pub mod operand;

// The inverse of 2^32.
const INV_SHIFT_32: u64 = 18446744065119617026;

// An operand on a row: its low and its high word.
#[derive(Clone, Copy)]
pub struct AddWords {
    pub lo: u64,
    pub hi: u64,
}

// The two values of ADD, of the carry out of the low words and of that out of the high words.
#[derive(Clone, Copy)]
pub struct Pair {
    pub low: u64,
    pub high: u64,
}

// The carry out of the low words of lhs + rhs = sum.
fn carry0(lhs: AddWords, rhs: AddWords, sum: AddWords) -> Fe
    requires { Elements lhs × Elements rhs × Elements sum }
    ensures carry { result.value ≡ low_carry lhs rhs sum }
    ensures below { result.value < p }
{
    let both = Fe { value: lhs.lo }.add(Fe { value: rhs.lo });
    let gap = both.sub(Fe { value: sum.lo });
    gap.mul(Fe {
        value: INV_SHIFT_32,
    })
}

// The carry out of the high words; `low` is the one out of the low words.
fn carry1(lhs: AddWords, rhs: AddWords, sum: AddWords, low: Fe) -> Fe
    requires { Elements lhs × Elements rhs × Elements sum × (low.value ≡ low_carry lhs rhs sum) × (low.value < p) }
    ensures carry { result.value ≡ high_carry lhs rhs sum }
    ensures below { result.value < p }
{
    let both = Fe { value: lhs.hi }.add(Fe { value: rhs.hi });
    let gap = both.add(low).sub(Fe { value: sum.hi });
    gap.mul(Fe {
        value: INV_SHIFT_32,
    })
}

// The high carry itself, for a caller that wants no carry where ADD would let it be 1.
pub fn add_pair_carry_hi(lhs: AddWords, rhs: AddWords, sum: AddWords) -> Fe
    requires { Elements lhs × Elements rhs × Elements sum }
    ensures carry { result.value ≡ high_carry lhs rhs sum }
    ensures below { result.value < p }
{
    let low = carry0(lhs, rhs, sum);
    carry1(lhs, rhs, sum, low)
}

// The two values of ADD: each carry is a bit. The operands come as their words on the row, because one that 25 lanes
// share is then evaluated once. The Rust takes any number of condition columns; the tables ported here have one or none.
pub fn emit_add_pair(row: &[u64], cond: Cond, lhs: AddWords, rhs: AddWords, sum: AddWords) -> Pair
    requires { CondIn row.now cond × Elements lhs × Elements rhs × Elements sum }
    ensures low { result.low ≡ bit_under row.now (columns_of cond) (low_carry lhs rhs sum) }
    ensures high { result.high ≡ bit_under row.now (columns_of cond) (high_carry lhs rhs sum) }
{
    let low = carry0(lhs, rhs, sum);
    let high = carry1(lhs, rhs, sum, low);
    Pair {
        low: bit_under(row, cond, low.value),
        high: bit_under(row, cond, high.value),
    }
}
