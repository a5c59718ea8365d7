// The values of a round row, group by group into a slice.
ghost use Rattle.std.specs.Prelude.{◌≡◌, ◌+◌, ◌*◌, ◌/◌, ◌%◌, ◌≤◌, ◌<◌, length};
ghost use Rattle.std.proofs.lemmas.List.Edits.{sets};
ghost use Rattle.lists.specs.Tab.{tab};
ghost use Rattle.field.specs.Elements.{ElementRow};
ghost use Rattle.keccak_rnd.specs.Columns.{NUM-COLUMNS};
ghost use Rattle.keccak_rnd.specs.Values.{carry_value, theta_value, rho_value};

use fips202::rho_offset;
use keccak_rnd::{RHO_VALUES, THETA_VALUES};
use keccak_rnd_value::{carry_value, rho_value, theta_value};

pub fn put_carry_values(row: &[u64], out: &mut [u64])
    requires { ElementRow NUM-COLUMNS row.now × (20 ≤ length out.old) }
    ensures { out.new ≡ sets out.old 0 (tab 20 (λ i. carry_value row.now (i / 4) (i % 4))) }
{
    for i in 0..THETA_VALUES {
        let value = carry_value(row, i);
        out[i] = value.value;
    }
}

// The four values of C[x], from `at`.
fn put_theta_column(row: &[u64], x: usize, out: &mut [u64], at: usize)
    requires { ElementRow NUM-COLUMNS row.now × (x < 5) × (at + 4 ≤ length out.old) }
    ensures { out.new ≡ sets out.old at (tab 4 (theta_value row.now x)) }
{
    for hw in 0..4 {
        let value = theta_value(row, x, hw);
        out[at + hw] = value.value;
    }
}

pub fn put_theta_values(row: &[u64], out: &mut [u64])
    requires { ElementRow NUM-COLUMNS row.now × (40 ≤ length out.old) }
    ensures { out.new ≡ sets out.old 20 (tab 20 (λ i. theta_value row.now (i / 4) (i % 4))) }
{
    for x in 0..5 {
        put_theta_column(row, x, out, THETA_VALUES + 4 * x);
    }
}

// The four values of lane (x, y), from `at`.
fn put_rho_lane(row: &[u64], x: usize, y: usize, out: &mut [u64], at: usize)
    requires { ElementRow NUM-COLUMNS row.now × (x < 5) × (y < 5) × (at + 4 ≤ length out.old) }
    ensures { out.new ≡ sets out.old at (tab 4 (rho_value row.now x y)) }
{
    let power = rho_offset(x, y) % 16;
    for hw in 0..4 {
        let value = rho_value(row, x, y, power, hw);
        out[at + hw] = value.value;
    }
}

// The lanes of one x, from `at`.
fn put_rho_lanes(row: &[u64], x: usize, out: &mut [u64], at: usize)
    requires { ElementRow NUM-COLUMNS row.now × (x < 5) × (at + 20 ≤ length out.old) }
    ensures { out.new ≡ sets out.old at (tab 20 (λ i. rho_value row.now x (i / 4) (i % 4))) }
{
    for y in 0..5 {
        put_rho_lane(row, x, y, out, at + 4 * y);
    }
}

pub fn put_rho_values(row: &[u64], out: &mut [u64])
    requires { ElementRow NUM-COLUMNS row.now × (140 ≤ length out.old) }
    ensures { out.new ≡ sets out.old 40 (tab 100 (λ i. rho_value row.now (i / 20) (i / 4 % 5) (i % 4))) }
{
    for x in 0..5 {
        put_rho_lanes(row, x, out, RHO_VALUES + 20 * x);
    }
}
