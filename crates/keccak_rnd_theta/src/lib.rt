// θ by tables of bytes: D, and the state after θ.
#![tactic(auto)]

ghost use Rattle.std.specs.Prelude.{◌≡◌, [], ℕ, ◌<◌, get_or};
ghost use Rattle.std.specs.Int.Bits.{bit_xor};
ghost use Rattle.lists.specs.Tab.{tab, word};
ghost use Rattle.bits.specs.Bits.{lane_of};
ghost use Rattle.fips202.specs.Lanes.{grid, lane};
ghost use Rattle.keccak_rnd.specs.Parts.{Joins, rotated_from, d_bytes};

use keccak_rnd_halfword::half_of;
use permutation::State;

// C[x] rotated by one: an even byte takes the carry of the halfword below it, byte 0 that of halfword 3.
fn rotated(left: [u8; 8], right: [u8; 4]) -> [u8; 8]
    requires { Joins left right }
    ensures { result ≡ tab 8 (rotated_from left right) }
{
    [
        left[0] + right[3],
        left[1],
        left[2] + right[0],
        left[3],
        left[4] + right[1],
        left[5],
        left[6] + right[2],
        left[7],
    ]
}

// D of one column: C of the column before it, plus the rotated C of the column after it.
fn d_bytes(before: [u8; 8], left: [u8; 8], right: [u8; 4]) -> [u8; 8]
    requires { Joins left right }
    ensures { result ≡ tab 8 (λ b. bit_xor (word before b) (rotated_from left right b)) }
{
    let r = rotated(left, right);
    [
        before[0] ^ r[0],
        before[1] ^ r[1],
        before[2] ^ r[2],
        before[3] ^ r[3],
        before[4] ^ r[4],
        before[5] ^ r[5],
        before[6] ^ r[6],
        before[7] ^ r[7],
    ]
}

// D of the five columns.
pub fn d_table(cxz: [[[u8; 8]; 4]; 5], left: [[u8; 8]; 5], right: [[u8; 4]; 5]) -> [[u8; 8]; 5]
    requires { (x : ℕ) → x < 5 → Joins (get_or left x []) (get_or right x []) }
    ensures { result ≡ tab 5 (d_bytes cxz left right) }
{
    [
        d_bytes(cxz[4][3], left[1], right[1]),
        d_bytes(cxz[0][3], left[2], right[2]),
        d_bytes(cxz[1][3], left[3], right[3]),
        d_bytes(cxz[2][3], left[4], right[4]),
        d_bytes(cxz[3][3], left[0], right[0]),
    ]
}

// The lane of eight bytes.
fn lane_of(c: [u8; 8]) -> u64
    ensures { result ≡ lane_of (word c) }
{
    let a = half_of(c, 0);
    let b = half_of(c, 1);
    let d = half_of(c, 2);
    let e = half_of(c, 3);
    a + b * 65536 + d * 4294967296 + e * 281474976710656
}

// The state after θ: each lane plus D of its column.
pub fn after_theta(s: [u64; 25], d: [[u8; 8]; 5]) -> State
    ensures { result.lanes ≡ grid (λ x y. bit_xor (lane s x y) (lane_of (word (get_or d x [])))) }
{
    let d_lanes = [
        lane_of(d[0]),
        lane_of(d[1]),
        lane_of(d[2]),
        lane_of(d[3]),
        lane_of(d[4]),
    ];
    State { lanes: s }.theta_planes(d_lanes)
}
