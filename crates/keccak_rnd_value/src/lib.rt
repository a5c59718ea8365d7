// tables/keccak_rnd.rs, eval: the values of a round row, one by one.
#![tactic(auto)]

ghost use Rattle.std.specs.Prelude.{◌≡◌, ◌+◌, ◌/◌, ◌%◌, ◌^◌, ◌≤◌, ◌<◌};
ghost use Rattle.lists.specs.Tab.{word};
ghost use Rattle.field.specs.Field.{p, fmul};
ghost use Rattle.field.specs.Elements.{ElementRow};
ghost use Rattle.keccak_rnd.specs.Columns.{NUM-COLUMNS, MU};
ghost use Rattle.keccak_rnd.specs.Row.{rnc};
ghost use Rattle.keccak_rnd.specs.Values.{halfword_at, identity, carry_value, theta_value, rho_value};

use add_template::is_bit;
use field::Fe;
use keccak_rnd::{CXZ, CXZ_LEFT, CXZ_RIGHT, MU, ROT_LEFT, ROT_RIGHT, THETA};
use shift::times_power;

pub mod shift;

// Column k.
pub fn element(row: &[u64], k: usize) -> Fe
    requires { ElementRow NUM-COLUMNS row.now × (k < NUM-COLUMNS) }
    ensures is { result.value ≡ word row.now k }
    ensures below { result.value < p }
{
    Fe { value: row[k] }
}

// The bytes in columns k and k + 1, as a halfword.
pub fn halfword_at(row: &[u64], k: usize) -> Fe
    requires { ElementRow NUM-COLUMNS row.now × (k + 1 < NUM-COLUMNS) }
    ensures is { result.value ≡ halfword_at row.now k }
    ensures below { result.value < p }
{
    let low = element(row, k);
    let high = element(row, k + 1);
    let shifted = times_power(high, 8);
    low.add(shifted)
}

// half * 2^power - right * 2^16 - left.
pub fn identity(half: Fe, power: u32, left: Fe, right: Fe) -> Fe
    requires { (half.value < p) × (power ≤ 16) × (left.value < p) × (right.value < p) }
    ensures is { result.value ≡ identity half.value (2 ^ power) left.value right.value }
    ensures below { result.value < p }
{
    let shifted = times_power(half, power);
    let carry = times_power(right, 16);
    let rest = shifted.sub(carry);
    rest.sub(left)
}

// MU times a value; in the rows of rounds MU is 1.
pub fn gated(row: &[u64], value: Fe) -> Fe
    requires { ElementRow NUM-COLUMNS row.now × (value.value < p) }
    ensures { result.value ≡ fmul (word row.now MU) value.value }
{
    let mu = row[MU];
    if mu == 1 {
        return value;
    }
    Fe { value: mu }.mul(value)
}

// 0 to 19: the carry i of C rotated by one is a bit, in padding rows too.
pub fn carry_value(row: &[u64], i: usize) -> Fe
    requires { ElementRow NUM-COLUMNS row.now × (i < 20) }
    ensures { result.value ≡ carry_value row.now (i / 4) (i % 4) }
{
    let carry = element(row, CXZ_RIGHT + i);
    Fe {
        value: is_bit(carry.value),
    }
}

// 20 to 39: halfword hw of C[x], shifted by one.
pub fn theta_value(row: &[u64], x: usize, hw: usize) -> Fe
    requires { ElementRow NUM-COLUMNS row.now × (x < 5) × (hw < 4) }
    ensures { result.value ≡ theta_value row.now x hw }
{
    let half = halfword_at(row, CXZ + (x * 4 + 3) * 8 + hw * 2);
    let left = halfword_at(row, CXZ_LEFT + x * 8 + hw * 2);
    let right = element(row, CXZ_RIGHT + x * 4 + hw);
    let value = identity(half, 1, left, right);
    gated(row, value)
}

// 40 to 139: halfword hw of θ's lane (x, y), shifted by its offset mod 16.
pub fn rho_value(row: &[u64], x: usize, y: usize, power: u32, hw: usize) -> Fe
    requires { ElementRow NUM-COLUMNS row.now × (x < 5) × (y < 5) × (power ≡ rnc x y) × (hw < 4) }
    ensures { result.value ≡ rho_value row.now x y hw }
{
    let lane = (x + 5 * y) * 8;
    let half = halfword_at(row, THETA + lane + hw * 2);
    let left = halfword_at(row, ROT_LEFT + lane + hw * 2);
    let right = halfword_at(row, ROT_RIGHT + lane + hw * 2);
    let value = identity(half, power, left, right);
    gated(row, value)
}
