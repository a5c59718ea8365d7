// constraints/templates.rs: the IS_BIT template, over words mod P.
ghost use Rattle.std.specs.Prelude.{◌≡◌, ◌<◌, length};
ghost use Rattle.lists.specs.Tab.{word};
ghost use Rattle.field.specs.Field.{p};
ghost use Rattle.templates.specs.Templates.{is_bit, is_bit_if, bit_under, emit-is-bit};
ghost use Rattle.add_template.specs.Conditions.{CondIn, columns_of};

use field::Fe;
use templates::Cond;

// x (1 - x).
pub fn is_bit(x: u64) -> u64
    requires { x < p }
    ensures { result ≡ is_bit x }
{
    let e = Fe { value: x };
    let product = e.mul(Fe::ONE.sub(e));
    product.value
}

// cond x (1 - x).
fn is_bit_if(cond: u64, x: u64) -> u64
    requires { x < p }
    ensures { result ≡ is_bit_if cond x }
{
    let e = Fe { value: x };
    let product = Fe { value: cond }.mul(e).mul(Fe::ONE.sub(e));
    product.value
}

// IS_BIT of a value below P, under a column or always.
pub fn bit_under(row: &[u64], cond: Cond, x: u64) -> u64
    requires { CondIn row.now cond × (x < p) }
    ensures { result ≡ bit_under row.now (columns_of cond) x }
{
    match cond {
        Cond::When(col) => is_bit_if(row[col], x),
        Cond::Always => is_bit(x),
    }
}

// IS_BIT of a column, under a column or always.
pub fn emit_is_bit(row: &[u64], column: usize, cond: Cond) -> u64
    requires { (column < length row.now) × (word row.now column < p) × CondIn row.now cond }
    ensures { result ≡ emit-is-bit row.now column cond }
{
    bit_under(row, cond, row[column])
}
