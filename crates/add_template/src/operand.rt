// constraints/templates.rs: the two words of an ADD operand on a row, over words mod P.
ghost use Rattle.std.specs.Prelude.{◌≡◌, ◌<◌};
ghost use Rattle.field.specs.Field.{p, fadd};
ghost use Rattle.templates.specs.Templates.{const-signed, add-term-expr, add-terms-expr, add-operand-lo, add-operand-hi};
ghost use Rattle.add_template.specs.Within.{TermIn, TermsIn, OperandIn};
ghost use Rattle.add_template.specs.Words.{words_on, Elements};

use super::AddWords;
use field::Fe;
use templates::{AddKind, AddLinearTerm, AddOperand, AddTerms};

// A signed number mod P.
fn const_signed(v: i64) -> Fe
    ensures constant { result.value ≡ const-signed v }
    ensures below { result.value < p }
{
    if v >= 0 {
        return Fe { value: v as u64 };
    }
    let least = -1 - v;
    Fe {
        value: Fe::P - 1 - (least as u64),
    }
}

// The sum so far and a term: a column times its coefficient, or a constant. A coefficient 1 takes no product, and a term
// that is not used nothing.
fn add_term(row: &[u64], sum: Fe, t: AddLinearTerm) -> Fe
    requires { (sum.value < p) × TermIn row.now t }
    ensures sum { result.value ≡ fadd sum.value (add-term-expr row.now t) }
    ensures below { result.value < p }
{
    match t {
        AddLinearTerm::Column(coefficient, column) => {
            let word = Fe { value: row[column] };
            if coefficient == 1 {
                return sum.add(word);
            }
            sum.add(word.mul(const_signed(coefficient)))
        }
        AddLinearTerm::Constant(v) => {
            if v == 0 {
                return sum;
            }
            sum.add(const_signed(v))
        }
    }
}

// The sum of the terms, from zero.
fn add_terms_expr(row: &[u64], terms: AddTerms) -> Fe
    requires { TermsIn row.now terms }
    ensures sum { result.value ≡ add-terms-expr row.now terms }
    ensures below { result.value < p }
{
    let t0 = terms.t0;
    let t1 = terms.t1;
    let t2 = terms.t2;
    let t3 = terms.t3;
    let one = add_term(row, Fe::ZERO, t0);
    let two = add_term(row, one, t1);
    let three = add_term(row, two, t2);
    add_term(row, three, t3)
}

// An operand's low word.
fn add_operand_lo(row: &[u64], op: AddOperand) -> Fe
    requires { OperandIn row.now op }
    ensures word { result.value ≡ add-operand-lo row.now op }
    ensures below { result.value < p }
{
    let kind = op.kind;
    let lo = op.lo;
    match kind {
        AddKind::DWordWL(start) => Fe { value: row[start] },
        AddKind::Linear => add_terms_expr(row, lo),
    }
}

// An operand's high word.
fn add_operand_hi(row: &[u64], op: AddOperand) -> Fe
    requires { OperandIn row.now op }
    ensures word { result.value ≡ add-operand-hi row.now op }
    ensures below { result.value < p }
{
    let kind = op.kind;
    let hi = op.hi;
    match kind {
        AddKind::DWordWL(start) => Fe {
            value: row[start + 1],
        },
        AddKind::Linear => add_terms_expr(row, hi),
    }
}

// Both words of an operand.
pub fn add_words(row: &[u64], op: AddOperand) -> AddWords
    requires { OperandIn row.now op }
    ensures words { result ≡ words_on row.now op }
    ensures below { Elements result }
{
    let lo = add_operand_lo(row, op);
    let hi = add_operand_hi(row, op);
    AddWords {
        lo: lo.value,
        hi: hi.value,
    }
}
