// tables/keccak_rnd.rs: a round row, group by group, in three parts.
#![tactic(auto)]

ghost use Rattle.std.specs.Prelude.{◌≡◌, ◌+◌, ◌≤◌, length};
ghost use Rattle.std.proofs.lemmas.List.Edits.{sets};
ghost use Rattle.lists.specs.Tab.{tab, row_of};
ghost use Rattle.bits.specs.Bits.{word_at};
ghost use Rattle.answer.specs.Refusal.{answer_of};
ghost use Rattle.keccak_rnd.specs.Row.{round_row};
ghost use Rattle.keccak_rnd.specs.Refusals.{round_row_refusal};
ghost use Rattle.keccak_rnd.specs.Calls.{round_row_after};
ghost use Rattle.keccak_rnd.specs.Parts.{stage_cell, byte_cell, bit_cell, cxz_table, left_table, right_table, d_table, front_groups, rho_groups, chi_groups};

use answer::Refusal;
use bits::{put_dword_bl, put_dword_wl, put_lanes};
use fips202::round_constant;
use keccak_rnd::{
    CHI_ANDS, CXZ, CXZ_LEFT, CXZ_RIGHT, DXZ, NUM_COLUMNS, ROUND, ROUNDS, START, THETA,
};
use keccak_rnd_parity::{cxz_table, left_table, right_table};
use keccak_rnd_rho::{chi_ands, rot_left, rot_right};
use keccak_rnd_theta::{after_theta, d_table};
use operations::lanes_at;
use permutation::State;

fn word_of(x: u8) -> u64
    ensures { result ≡ x }
{
    x as u64
}

fn put_word(row: &mut [u64], at: usize, x: u64)
    requires { at + 1 ≤ length row.old }
    ensures { row.new ≡ sets row.old at (tab 1 (λ k. x)) }
{
    row[at] = x;
}

// The four stages of the five columns.
fn put_stages(row: &mut [u64], at: usize, t: [[[u8; 8]; 4]; 5])
    requires { at + 160 ≤ length row.old }
    ensures { row.new ≡ sets row.old at (tab 160 (stage_cell t)) }
{
    for k in 0..160 {
        row[at + k] = word_of(t[k / 32][k / 8 % 4][k % 8]);
    }
}

// A table of five lanes by eight bytes.
fn put_table(row: &mut [u64], at: usize, t: [[u8; 8]; 5])
    requires { at + 40 ≤ length row.old }
    ensures { row.new ≡ sets row.old at (tab 40 (byte_cell t)) }
{
    for k in 0..40 {
        row[at + k] = word_of(t[k / 8][k % 8]);
    }
}

// A table of five lanes by four bits.
fn put_bits(row: &mut [u64], at: usize, t: [[u8; 4]; 5])
    requires { at + 20 ≤ length row.old }
    ensures { row.new ≡ sets row.old at (tab 20 (bit_cell t)) }
{
    for k in 0..20 {
        row[at + k] = word_of(t[k / 4][k % 4]);
    }
}

// Timestamp, ROUND, START and the tables.
fn put_front(
    row: &mut [u64],
    at: usize,
    timestamp: u64,
    round: u64,
    s: [u64; 25],
    cxz: [[[u8; 8]; 4]; 5],
    left: [[u8; 8]; 5],
    right: [[u8; 4]; 5],
    d: [[u8; 8]; 5],
)
    requires { at + 463 ≤ length row.old }
    ensures { row.new ≡ sets row.old at (row_of (front_groups (word_at timestamp) round s cxz left right d)) }
{
    put_dword_wl(row, at, timestamp);
    put_word(row, at + ROUND, round);
    put_lanes(row, at + START, s);
    put_stages(row, at + CXZ, cxz);
    put_table(row, at + CXZ_LEFT, left);
    put_bits(row, at + CXZ_RIGHT, right);
    put_table(row, at + DXZ, d);
}

// The tables of bytes are computed once; D is handed on.
fn put_theta(row: &mut [u64], at: usize, timestamp: u64, round: u64, s: [u64; 25]) -> [[u8; 8]; 5]
    requires { at + 463 ≤ length row.old }
    ensures row { row.new ≡ sets row.old at (row_of (front_groups (word_at timestamp) round s (cxz_table s) (left_table s) (right_table s) (d_table s))) }
    ensures d { result ≡ d_table s }
{
    let cxz = cxz_table(s);
    let left = left_table(cxz);
    let right = right_table(cxz);
    let d = d_table(cxz, left, right);
    put_front(row, at, timestamp, round, s, cxz, left, right, d);
    d
}

// THETA, ROT_LEFT, ROT_RIGHT.
fn put_rho(row: &mut [u64], at: usize, t: [u64; 25])
    requires { at + 600 ≤ length row.old }
    ensures { row.new ≡ sets row.old at (row_of (rho_groups t)) }
{
    let left = rot_left(t);
    let right = rot_right(t);
    let low = left.lanes;
    let carry = right.lanes;
    put_lanes(row, at, t);
    put_lanes(row, at + 200, low);
    put_lanes(row, at + 400, carry);
}

// CHI_ANDS, CHI, RC, IOTA, MU, from the state after π and the state after χ.
fn put_chi(row: &mut [u64], at: usize, round: usize, u: [u64; 25], v: [u64; 25])
    requires { at + 417 ≤ length row.old }
    ensures { row.new ≡ sets row.old at (row_of (chi_groups round u v)) }
{
    let ands = chi_ands(u);
    let lanes = ands.lanes;
    let rc = round_constant(round);
    let iota = v[0] ^ rc;
    put_lanes(row, at, lanes);
    put_lanes(row, at + 200, v);
    put_dword_bl(row, at + 400, rc);
    put_dword_bl(row, at + 408, iota);
    put_word(row, at + 416, 1);
}

// The row of a round from `at`: START is s.
pub fn put_round_row(row: &mut [u64], at: usize, timestamp: u64, round: usize, s: [u64; 25])
    requires { at + 1480 ≤ length row.old }
    ensures { row.new ≡ sets row.old at (round_row (word_at timestamp) round s) }
{
    let d = put_theta(row, at, timestamp, round as u64, s);
    let theta = after_theta(s, d);
    let pi = theta.rho_pi();
    let chi = pi.chi();
    let t = theta.lanes;
    let u = pi.lanes;
    let v = chi.lanes;
    put_rho(row, at + THETA, t);
    put_chi(row, at + CHI_ANDS, round, u, v);
}

// The row of a round: START is the first 25 words of `start`.
pub fn keccak_rnd_row(
    timestamp: u64,
    start: &[u64],
    round: usize,
    row: &mut [u64],
) -> Result<(), Refusal>
    ensures answer { result ≡ answer_of (round_row_refusal round start.now row.old) }
    ensures words { row.new ≡ round_row_after timestamp start.now round row.old }
{
    if round >= ROUNDS {
        return Err(Refusal::PastEnd(ROUNDS as u64));
    }
    if start.len() < 25 {
        return Err(Refusal::TooShort(25));
    }
    if row.len() < NUM_COLUMNS {
        return Err(Refusal::TooShort(NUM_COLUMNS as u64));
    }
    let lanes = lanes_at(start, 0);
    put_round_row(row, 0, timestamp, round, lanes);
    Ok(())
}
