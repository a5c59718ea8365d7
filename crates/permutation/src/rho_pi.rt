// FIPS 202, 3.2.2 and 3.2.3: ρ and π on 25 lanes, lane (x, y) at x + 5 * y, plane by plane.
ghost use Rattle.std.specs.Prelude.{◌≡◌, ◌<◌};
ghost use Rattle.fips202.specs.Lanes.{plane, rho_pi_at, rho_pi_l};

use crate::lanes::{joined, rotate_left};
use fips202::rho_offset;

// The plane of y: lane (x, y) takes lane (x + 3y, x), rotated by that lane's offset.
fn rho_pi_plane(a: [u64; 25], y: usize) -> [u64; 5]
    requires { y < 5 }
    ensures { result ≡ plane (rho_pi_at a) y }
{
    let mut p = [0u64; 5];
    for x in 0..5 {
        let from = (x + 3 * y) % 5;
        p[x] = rotate_left(a[from + 5 * x], rho_offset(from, x));
    }
    p
}

pub fn rho_pi(a: [u64; 25]) -> [u64; 25]
    ensures { result ≡ rho_pi_l a }
{
    joined(
        rho_pi_plane(a, 0),
        rho_pi_plane(a, 1),
        rho_pi_plane(a, 2),
        rho_pi_plane(a, 3),
        rho_pi_plane(a, 4),
    )
}
