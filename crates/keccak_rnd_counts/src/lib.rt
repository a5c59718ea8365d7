// tables/keccak_rnd.rs, bus_interactions: the lookups of round rows on the bitwise table, charged to its counters.
#![tactic(auto)]

ghost use Rattle.std.specs.Prelude.{◌≡◌, ℕ, ◌+◌, ◌-◌, ◌*◌, ◌/◌, ◌%◌, ◌≤◌, ◌<◌, length};
ghost use Rattle.field.specs.Elements.{ElementRow};
ghost use Rattle.bitwise.specs.Columns.{NUM-COUNTERS};
ghost use Rattle.bitwise.specs.Charge.{charged_row, charged, charged_counters};
ghost use Rattle.fips202.specs.Lanes.{theta_l, rho_pi_l, chi_l, iota_l, rnd_l, rounds_l};
ghost use Rattle.keccak.specs.Row.{OP-WORDS, op_at};
ghost use Rattle.keccak_rnd.specs.Row.{round_row, op_row};
ghost use Rattle.keccak_rnd.specs.Tuples.{NUM-TUPLES, round_tuple};
ghost use Rattle.keccak_rnd_counts.specs.Lanes.{front_adds, rest_adds};

use bitwise::XOR;
use fips202::round_constant;
use keccak::OP_WORDS;
use keccak_rnd::ROUNDS;
use lanes::charge_lane;
use operations::lanes_at;
use permutation::chi::chi;
use permutation::rho_pi::rho_pi;
use permutation::theta::{parities, theta_d, theta_planes};
use steps::{charge_chi, charge_columns, charge_rho, charge_theta, charge_turns};

pub mod lanes;
pub mod steps;

// θ from START; the state after it is handed on.
fn charge_front(counters: &mut [u64], s: [u64; 25]) -> [u64; 25]
    requires { ElementRow NUM-COUNTERS counters.old }
    ensures counters { counters.new ≡ charged_counters counters.old (front_adds s) }
    ensures lanes { result ≡ theta_l s }
{
    charge_columns(counters, s);
    let c = parities(s);
    charge_turns(counters, c);
    let d = theta_d(c);
    charge_theta(counters, s, d);
    theta_planes(s, d)
}

// ρ, χ and ι from the state after θ; the state after them is handed on.
fn charge_rest(counters: &mut [u64], r: usize, t: [u64; 25]) -> [u64; 25]
    requires { ElementRow NUM-COUNTERS counters.old × (r < 24) }
    ensures counters { counters.new ≡ charged_counters counters.old (rest_adds r t) }
    ensures lanes { result ≡ iota_l r (chi_l (rho_pi_l t)) }
{
    charge_rho(counters, t);
    let u = rho_pi(t);
    charge_chi(counters, u);
    let mut v = chi(u);
    let rc = round_constant(r);
    charge_lane(counters, XOR, v[0], rc);
    v[0] = v[0] ^ rc;
    v
}

// The row of round r from START, whatever its timestamp; the state after the round is handed on.
fn charge_round(counters: &mut [u64], r: usize, start: [u64; 25]) -> [u64; 25]
    requires { ElementRow NUM-COUNTERS counters.old × (r < 24) }
    ensures counters { (stamp : ℕ → ℕ) → counters.new ≡ charged_counters counters.old (charged_row NUM-TUPLES (round_tuple (round_row stamp r start))) }
    ensures lanes { result ≡ rnd_l start r }
{
    let t = charge_front(counters, start);
    charge_rest(counters, r, t)
}

// The nr rows of an operation, of rounds 24 - nr to 23: each starts from the state that the rounds before it left.
fn charge_rounds(counters: &mut [u64], nr: usize, first: [u64; 25])
    requires { ElementRow NUM-COUNTERS counters.old × (nr ≤ 24) }
    ensures { (stamp : ℕ → ℕ) → counters.new ≡ charged_counters counters.old (charged nr NUM-TUPLES (λ j. round_tuple (round_row stamp (24 - nr + j) (rounds_l (24 - nr) j first)))) }
{
    let mut lanes = first;
    for j in 0..nr {
        let r = ROUNDS - nr + j;
        let next = charge_round(counters, r, lanes);
        lanes = next;
    }
}

// The rows of n operations of nr rounds; of each only its input is read.
pub fn charge_op_rounds(nr: usize, ops: &[u64], n: usize, counters: &mut [u64])
    requires { (nr ≤ 24) × (OP-WORDS * n ≤ length ops.now) × ElementRow NUM-COUNTERS counters.old }
    ensures { counters.new ≡ charged_counters counters.old (charged (n * nr) NUM-TUPLES (λ q. round_tuple (op_row nr (op_at ops.now (q / nr)) (q % nr)))) }
{
    for i in 0..n {
        let lanes = lanes_at(ops, OP_WORDS * i + 2);
        charge_rounds(counters, nr, lanes);
    }
}
