// ρ by halfwords, and the ands of χ, plane by plane.
#![tactic(auto)]

ghost use Rattle.std.specs.Prelude.{◌≡◌, ◌<◌};
ghost use Rattle.fips202.specs.Lanes.{grid, plane};
ghost use Rattle.keccak_rnd.specs.Row.{and_at, and_lanes};
ghost use Rattle.keccak_rnd.specs.Parts.{left_lane, right_lane};

use fips202::rho_offset;
use keccak_rnd_halfword::shift_lane;
use permutation::{State, from_planes};

// The low parts of the plane of y, each lane's halfwords shifted by its offset mod 16.
fn left_plane(t: [u64; 25], y: usize) -> [u64; 5]
    requires { y < 5 }
    ensures { result ≡ plane (left_lane t) y }
{
    let mut p = [0u64; 5];
    for x in 0..5 {
        let shifted = shift_lane(t[x + 5 * y], rho_offset(x, y) % 16);
        p[x] = shifted.low;
    }
    p
}

// The carries of the plane of y.
fn right_plane(t: [u64; 25], y: usize) -> [u64; 5]
    requires { y < 5 }
    ensures { result ≡ plane (right_lane t) y }
{
    let mut p = [0u64; 5];
    for x in 0..5 {
        let carried = shift_lane(t[x + 5 * y], rho_offset(x, y) % 16);
        p[x] = carried.carry;
    }
    p
}

pub fn rot_left(t: [u64; 25]) -> State
    ensures { result.lanes ≡ grid (left_lane t) }
{
    from_planes(
        left_plane(t, 0),
        left_plane(t, 1),
        left_plane(t, 2),
        left_plane(t, 3),
        left_plane(t, 4),
    )
}

pub fn rot_right(t: [u64; 25]) -> State
    ensures { result.lanes ≡ grid (right_lane t) }
{
    from_planes(
        right_plane(t, 0),
        right_plane(t, 1),
        right_plane(t, 2),
        right_plane(t, 3),
        right_plane(t, 4),
    )
}

// The ands of χ on the plane of y: not (x + 1, y), and (x + 2, y).
fn and_plane(u: [u64; 25], y: usize) -> [u64; 5]
    requires { y < 5 }
    ensures { result ≡ plane (and_at u) y }
{
    let mut p = [0u64; 5];
    for x in 0..5 {
        p[x] = !u[(x + 1) % 5 + 5 * y] & u[(x + 2) % 5 + 5 * y];
    }
    p
}

pub fn chi_ands(u: [u64; 25]) -> State
    ensures { result.lanes ≡ and_lanes u }
{
    from_planes(
        and_plane(u, 0),
        and_plane(u, 1),
        and_plane(u, 2),
        and_plane(u, 3),
        and_plane(u, 4),
    )
}
