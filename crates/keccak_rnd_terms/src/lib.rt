// tables/keccak_rnd.rs, bus_interactions: the linear terms among the operands of a round row's tuples, each a byte that no
// column holds: of C rotated by one, of π, and 255 less a byte of π. One byte, and all of a row.
#![tactic(auto)]

ghost use Rattle.std.specs.Prelude.{◌≡◌, ℕ, ◌+◌, ◌/◌, ◌%◌, ◌≤◌, ◌<◌, length};
ghost use Rattle.std.proofs.lemmas.List.Edits.{sets};
ghost use Rattle.lists.specs.Tab.{tab, word};
ghost use Rattle.field.specs.Field.{p, fsub};
ghost use Rattle.field.specs.Elements.{ElementRow};
ghost use Rattle.keccak.specs.Columns.{by_xyb};
ghost use Rattle.keccak_rnd.specs.Columns.{NUM-COLUMNS};
ghost use Rattle.keccak_rnd.specs.Tuples.{rotated_c_at, pi_at, not_pi_at};
ghost use Rattle.keccak_rnd_terms.specs.Terms.{NUM-TERMS, PI, NOT-PI, term, SourceOf, sum_of};

use field::Fe;
use fips202::rho_offset;
use keccak_rnd::{CXZ_LEFT, CXZ_RIGHT, ROT_LEFT, ROT_RIGHT};

// How many there are, and where those of π and those of 255 less π begin.
pub const NUM_TERMS: usize = 440;

pub const PI: usize = 40;

pub const NOT_PI: usize = 240;

// Byte b of C[x] rotated by one: an even byte takes the carry of the halfword below it.
fn rotated_c(row: &[u64], x: usize, b: usize) -> u64
    requires { ElementRow NUM-COLUMNS row.now × (x < 5) × (b < 8) }
    ensures { result ≡ rotated_c_at row.now x b }
{
    let left = row[CXZ_LEFT + x * 8 + b];
    if b % 2 == 1 {
        return left;
    }
    let carry = row[CXZ_RIGHT + x * 4 + (b / 2 + 3) % 4];
    let sum = Fe { value: left }.add(Fe { value: carry });
    sum.value
}

// C rotated by one, its 40 bytes.
fn put_rotated(row: &[u64], out: &mut [u64])
    requires { ElementRow NUM-COLUMNS row.now × (PI ≤ length out.old) }
    ensures { out.new ≡ sets out.old 0 (tab PI (λ k. rotated_c_at row.now (k / 8) (k % 8))) }
{
    for k in 0..PI {
        out[k] = rotated_c(row, k / 8, k % 8);
    }
}

// Where the low parts and the carries of a lane of π stand, and by how many bytes they are still to be moved.
#[derive(Clone, Copy)]
struct Source {
    left: usize,
    right: usize,
    moved: usize,
}

// pi_src_cols: π's lane (x, y) is ρ's lane (x + 3y, x).
fn pi_source(x: usize, y: usize) -> Source
    requires { (x < 5) × (y < 5) }
    ensures { SourceOf x y result }
{
    let from = (x + 3 * y) % 5;
    let lane = (from + 5 * x) * 8;
    let moved = 2 * (rho_offset(from, x) as usize / 16);
    Source {
        left: ROT_LEFT + lane,
        right: ROT_RIGHT + lane,
        moved,
    }
}

// Byte z of that lane: the low part and the carry that have come to it.
fn pi_byte(row: &[u64], source: Source, z: usize) -> u64
    requires { ElementRow NUM-COLUMNS row.now × (source.left + 8 ≤ NUM-COLUMNS) × (source.right + 8 ≤ NUM-COLUMNS) × (source.moved ≤ 8) × (z < 8) }
    ensures { result ≡ sum_of row.now source z }
{
    let low = row[source.left + (z + (8 - source.moved)) % 8];
    let carry = row[source.right + (z + (14 - source.moved)) % 8];
    let sum = Fe { value: low }.add(Fe { value: carry });
    sum.value
}

// Its eight bytes, into `out` from `at`.
fn put_pi_lane(row: &[u64], source: Source, out: &mut [u64], at: usize)
    requires { ElementRow NUM-COLUMNS row.now × (source.left + 8 ≤ NUM-COLUMNS) × (source.right + 8 ≤ NUM-COLUMNS) × (source.moved ≤ 8) × (at + 8 ≤ length out.old) }
    ensures { out.new ≡ sets out.old at (tab 8 (sum_of row.now source)) }
{
    for z in 0..8 {
        out[at + z] = pi_byte(row, source, z);
    }
}

// The bytes of π, x outermost.
fn put_pi(row: &[u64], out: &mut [u64])
    requires { ElementRow NUM-COLUMNS row.now × (NOT-PI ≤ length out.old) }
    ensures { out.new ≡ sets out.old PI (tab 200 (by_xyb (pi_at row.now))) }
{
    for l in 0..25 {
        let source = pi_source(l / 5, l % 5);
        put_pi_lane(row, source, out, PI + 8 * l);
    }
}

// 255 less a byte of π.
fn not_byte(a: u64) -> u64
    requires { a < p }
    ensures { result ≡ fsub 255 a }
{
    let rest = Fe { value: 255 }.sub(Fe { value: a });
    rest.value
}

// 255 less each of the bytes of π, which stand before them.
fn put_not_pi(out: &mut [u64])
    requires { (NUM-TERMS ≤ length out.old) × ((k : ℕ) → k < 200 → word out.old (PI + k) < p) }
    ensures { out.new ≡ sets out.old NOT-PI (tab 200 (λ k. fsub 255 (word out.old (PI + k)))) }
{
    for k in 0..200 {
        out[NOT_PI + k] = not_byte(out[PI + k]);
    }
}

// The terms of a row.
pub fn put_terms(row: &[u64], out: &mut [u64])
    requires { ElementRow NUM-COLUMNS row.now × (NUM-TERMS ≤ length out.old) }
    ensures { out.new ≡ sets out.old 0 (tab NUM-TERMS (term row.now)) }
{
    put_rotated(row, out);
    put_pi(row, out);
    put_not_pi(out);
}

// Byte z of lane (x, y) of π.
fn pi_at(row: &[u64], x: usize, y: usize, z: usize) -> u64
    requires { ElementRow NUM-COLUMNS row.now × (x < 5) × (y < 5) × (z < 8) }
    ensures { result ≡ pi_at row.now x y z }
{
    let source = pi_source(x, y);
    pi_byte(row, source, z)
}

// And 255 less that byte.
fn not_pi_at(row: &[u64], x: usize, y: usize, z: usize) -> u64
    requires { ElementRow NUM-COLUMNS row.now × (x < 5) × (y < 5) × (z < 8) }
    ensures { result ≡ not_pi_at row.now x y z }
{
    let a = pi_at(row, x, y, z);
    not_byte(a)
}

// Term k of a row.
pub fn term_at(row: &[u64], k: usize) -> u64
    requires { ElementRow NUM-COLUMNS row.now × (k < NUM-TERMS) }
    ensures { result ≡ term row.now k }
{
    if k < PI {
        return rotated_c(row, k / 8, k % 8);
    }
    if k < NOT_PI {
        let i = k - PI;
        return pi_at(row, i / 40, i / 8 % 5, i % 8);
    }
    let i = k - NOT_PI;
    not_pi_at(row, i / 40, i / 8 % 5, i % 8)
}
