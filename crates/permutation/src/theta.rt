// FIPS 202, 3.2.1: θ on 25 lanes, lane (x, y) at x + 5 * y, plane by plane.
ghost use Rattle.std.specs.Prelude.{◌≡◌, ◌<◌};
ghost use Rattle.lists.specs.Tab.{tab};
ghost use Rattle.fips202.specs.Lanes.{grid, plane, parity_l, theta_dl, theta_at, theta_l};

use crate::lanes::{joined, rotate_left};

// C[x]: the parity of each column.
pub fn parities(a: [u64; 25]) -> [u64; 5]
    ensures { result ≡ tab 5 (parity_l a) }
{
    let mut c = [0u64; 5];
    for x in 0..5 {
        c[x] = a[x] ^ a[x + 5] ^ a[x + 10] ^ a[x + 15] ^ a[x + 20];
    }
    c
}

// D[x], from the parities C of the columns.
pub fn theta_d(c: [u64; 5]) -> [u64; 5]
    ensures { result ≡ tab 5 (theta_dl c) }
{
    let mut d = [0u64; 5];
    for x in 0..5 {
        d[x] = c[(x + 4) % 5] ^ rotate_left(c[(x + 1) % 5], 1);
    }
    d
}

// The plane of y: each lane plus D[x].
fn theta_plane(a: [u64; 25], d: [u64; 5], y: usize) -> [u64; 5]
    requires { y < 5 }
    ensures { result ≡ plane (theta_at a d) y }
{
    let mut p = [0u64; 5];
    for x in 0..5 {
        p[x] = a[x + 5 * y] ^ d[x];
    }
    p
}

// The five planes, each lane plus D[x].
pub fn theta_planes(a: [u64; 25], d: [u64; 5]) -> [u64; 25]
    ensures { result ≡ grid (theta_at a d) }
{
    joined(
        theta_plane(a, d, 0),
        theta_plane(a, d, 1),
        theta_plane(a, d, 2),
        theta_plane(a, d, 3),
        theta_plane(a, d, 4),
    )
}

pub fn theta(a: [u64; 25]) -> [u64; 25]
    ensures { result ≡ theta_l a }
{
    theta_planes(a, theta_d(parities(a)))
}
