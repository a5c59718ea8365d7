// FIPS 202, 3.2.4: χ on 25 lanes, lane (x, y) at x + 5 * y, plane by plane.
ghost use Rattle.std.specs.Prelude.{◌≡◌, ◌<◌};
ghost use Rattle.fips202.specs.Lanes.{plane, chi_at, chi_l};

use crate::lanes::joined;

// The plane of y.
fn chi_plane(a: [u64; 25], y: usize) -> [u64; 5]
    requires { y < 5 }
    ensures { result ≡ plane (chi_at a) y }
{
    let mut p = [0u64; 5];
    for x in 0..5 {
        p[x] = a[x + 5 * y] ^ (!a[(x + 1) % 5 + 5 * y] & a[(x + 2) % 5 + 5 * y]);
    }
    p
}

pub fn chi(a: [u64; 25]) -> [u64; 25]
    ensures { result ≡ chi_l a }
{
    joined(
        chi_plane(a, 0),
        chi_plane(a, 1),
        chi_plane(a, 2),
        chi_plane(a, 3),
        chi_plane(a, 4),
    )
}
