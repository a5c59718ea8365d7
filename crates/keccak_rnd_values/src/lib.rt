// tables/keccak_rnd.rs, eval: the 141 values of a round row.
#![tactic(auto)]

ghost use Rattle.std.specs.Prelude.{◌≡◌, ◌≤◌, length};
ghost use Rattle.std.proofs.lemmas.List.Edits.{sets};
ghost use Rattle.lists.specs.Tab.{tab};
ghost use Rattle.field.specs.Elements.{ElementRow};
ghost use Rattle.tuple.specs.Values.{values_answer, values_after};
ghost use Rattle.keccak_rnd.specs.Columns.{NUM-COLUMNS};
ghost use Rattle.keccak_rnd.specs.Values.{NUM-VALUES, round_value};

use add_template::is_bit;
use answer::Refusal;
use groups::{put_carry_values, put_rho_values, put_theta_values};
use keccak_rnd::{MU, MU_VALUE, NUM_COLUMNS, NUM_VALUES};
use keccak_rnd_value::element;
use tuple::check::check_values;

pub mod groups;

// The values of a row, into the first 141 words of `out`.
pub fn put_round_values(row: &[u64], out: &mut [u64])
    requires { ElementRow NUM-COLUMNS row.now × (NUM-VALUES ≤ length out.old) }
    ensures { out.new ≡ sets out.old 0 (tab NUM-VALUES (round_value row.now)) }
{
    put_carry_values(row, out);
    put_theta_values(row, out);
    put_rho_values(row, out);
    let mu = element(row, MU);
    out[MU_VALUE] = is_bit(mu.value);
}

// The values of a row, whoever filled it.
pub fn round_values(row: &[u64], out: &mut [u64]) -> Result<(), Refusal>
    ensures answer { result ≡ values_answer NUM-COLUMNS NUM-VALUES row.now out.old }
    ensures words { out.new ≡ values_after NUM-COLUMNS NUM-VALUES round_value row.now out.old }
{
    let room = out.len();
    check_values(NUM_COLUMNS, NUM_VALUES, row, room)?;
    put_round_values(row, out);
    Ok(())
}
