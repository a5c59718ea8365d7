// FIPS 202, sections 3.2 and 3.3: the state of 25 lanes, its steps, the round, Keccak-p[1600, nr] and Keccak-f[1600].
#![tactic(auto)]

ghost use Rattle.std.specs.Prelude.{◌≡◌, ◌++◌, ◌≤◌, ◌<◌};
ghost use Rattle.fips202.specs.Fips.{Agree, rnd, keccak_p, keccak_f};
ghost use Rattle.fips202.specs.Lanes.{bits, grid, theta_at, rho_pi_l, chi_l, iota_l, rnd_l, keccak_pl};

use fips202::{ROUNDS, round_constant};
use lanes::joined;

pub mod chi;
pub mod lanes;
pub mod rho_pi;
pub mod theta;

// The state as 25 lanes; lane (x, y) is lanes[x + 5 * y], and bit z of it is A[x, y, z].
#[derive(Clone, Copy)]
pub struct State {
    pub lanes: [u64; 25],
}

// The state of five planes, in the order of y.
pub fn from_planes(a: [u64; 5], b: [u64; 5], c: [u64; 5], d: [u64; 5], e: [u64; 5]) -> State
    ensures { result.lanes ≡ a ++ (b ++ (c ++ (d ++ e))) }
{
    let lanes = joined(a, b, c, d, e);
    State { lanes }
}

// ι of round r.
fn iota(a: [u64; 25], r: usize) -> [u64; 25]
    requires { r < 24 }
    ensures { result ≡ iota_l r a }
{
    let mut lanes = a;
    lanes[0] = lanes[0] ^ round_constant(r);
    lanes
}

impl State {
    // θ on the five planes, from its D.
    pub fn theta_planes(self, d: [u64; 5]) -> State
        ensures { result.lanes ≡ grid (theta_at self.lanes d) }
    {
        let a = self.lanes;
        let lanes = theta::theta_planes(a, d);
        State { lanes }
    }

    pub fn rho_pi(self) -> State
        ensures { result.lanes ≡ rho_pi_l self.lanes }
    {
        let a = self.lanes;
        let lanes = rho_pi::rho_pi(a);
        State { lanes }
    }

    pub fn chi(self) -> State
        ensures { result.lanes ≡ chi_l self.lanes }
    {
        let a = self.lanes;
        let lanes = chi::chi(a);
        State { lanes }
    }

    // The state after round r.
    pub fn round(self, r: usize) -> State
        requires { r < 24 }
        ensures lanes { result.lanes ≡ rnd_l self.lanes r }
        ensures fips { Agree (bits result.lanes) (rnd (bits self.lanes) r) }
    {
        let a = self.lanes;
        let moved = rho_pi::rho_pi(theta::theta(a));
        let lanes = iota(chi::chi(moved), r);
        State { lanes }
    }

    // Keccak-p[1600, nr]: the rounds 24 - nr to 23.
    pub fn keccak_p(self, nr: usize) -> State
        requires { nr ≤ 24 }
        ensures lanes { result.lanes ≡ keccak_pl nr self.lanes }
        ensures fips { Agree (bits result.lanes) (keccak_p nr (bits self.lanes)) }
    {
        let mut state = self;
        for i in 0..nr {
            state = state.round(ROUNDS - nr + i);
        }
        state
    }

    // Keccak-f[1600].
    pub fn keccak_f(self) -> State
        ensures lanes { result.lanes ≡ keccak_pl 24 self.lanes }
        ensures fips { Agree (bits result.lanes) (keccak_f (bits self.lanes)) }
    {
        self.keccak_p(ROUNDS)
    }
}
