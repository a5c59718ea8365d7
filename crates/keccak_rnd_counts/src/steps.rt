// The lookups of each step of a round, from its lanes: no row is made.
ghost use Rattle.std.specs.Prelude.{◌≡◌, ◌<◌};
ghost use Rattle.field.specs.Elements.{ElementRow};
ghost use Rattle.bitwise.specs.Columns.{NUM-COUNTERS};
ghost use Rattle.bitwise.specs.Charge.{charged_counters};
ghost use Rattle.keccak_rnd_counts.specs.Lanes.{parts, column_adds, turn_adds, theta_adds, rho_adds, chi_adds};

use crate::lanes::{charge_halves, charge_lane};
use bitwise::{AND, ARE_BYTES, XOR};
use fips202::rho_offset;
use keccak_rnd_halfword::shift_lane;
use permutation::lanes::rotate_left;

// θ, column x in its four stages.
fn charge_column(counters: &mut [u64], s: [u64; 25], x: usize)
    requires { ElementRow NUM-COUNTERS counters.old × (x < 5) }
    ensures { counters.new ≡ charged_counters counters.old (column_adds s x) }
{
    let a = s[x] ^ s[x + 5];
    let b = a ^ s[x + 10];
    let c = b ^ s[x + 15];
    charge_lane(counters, XOR, s[x], s[x + 5]);
    charge_lane(counters, XOR, a, s[x + 10]);
    charge_lane(counters, XOR, b, s[x + 15]);
    charge_lane(counters, XOR, c, s[x + 20]);
}

pub fn charge_columns(counters: &mut [u64], s: [u64; 25])
    requires { ElementRow NUM-COUNTERS counters.old }
    ensures { counters.new ≡ charged_counters counters.old (parts 5 (column_adds s)) }
{
    for x in 0..5 {
        charge_column(counters, s, x);
    }
}

// The shifted halfwords of C[x], and D[x].
fn charge_turn(counters: &mut [u64], c: [u64; 5], x: usize)
    requires { ElementRow NUM-COUNTERS counters.old × (x < 5) }
    ensures { counters.new ≡ charged_counters counters.old (turn_adds c x) }
{
    let shifted = shift_lane(c[x], 1);
    charge_halves(counters, shifted.low);
    let turned = rotate_left(c[(x + 1) % 5], 1);
    charge_lane(counters, XOR, c[(x + 4) % 5], turned);
}

pub fn charge_turns(counters: &mut [u64], c: [u64; 5])
    requires { ElementRow NUM-COUNTERS counters.old }
    ensures { counters.new ≡ charged_counters counters.old (parts 5 (turn_adds c)) }
{
    for x in 0..5 {
        charge_turn(counters, c, x);
    }
}

// Each lane with D of its column.
pub fn charge_theta(counters: &mut [u64], s: [u64; 25], d: [u64; 5])
    requires { ElementRow NUM-COUNTERS counters.old }
    ensures { counters.new ≡ charged_counters counters.old (parts 25 (theta_adds s d)) }
{
    for i in 0..25 {
        charge_lane(counters, XOR, s[i], d[i % 5]);
    }
}

// ρ's two parts of each lane are bytes.
pub fn charge_rho(counters: &mut [u64], t: [u64; 25])
    requires { ElementRow NUM-COUNTERS counters.old }
    ensures { counters.new ≡ charged_counters counters.old (parts 25 (rho_adds t)) }
{
    for i in 0..25 {
        let shifted = shift_lane(t[i], rho_offset(i % 5, i / 5) % 16);
        charge_lane(counters, ARE_BYTES, shifted.low, shifted.carry);
    }
}

// χ's ands, and each lane with its own.
pub fn charge_chi(counters: &mut [u64], u: [u64; 25])
    requires { ElementRow NUM-COUNTERS counters.old }
    ensures { counters.new ≡ charged_counters counters.old (parts 25 (chi_adds u)) }
{
    for i in 0..25 {
        let a = !u[(i % 5 + 1) % 5 + 5 * (i / 5)];
        let b = u[(i % 5 + 2) % 5 + 5 * (i / 5)];
        charge_lane(counters, AND, a, b);
        charge_lane(counters, XOR, u[i], a & b);
    }
}
