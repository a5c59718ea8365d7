// tables/bitwise.rs: the row of an index, and the index of a row.
#![tactic(auto)]

ghost use Rattle.std.specs.Prelude.{◌≡◌, ◌&&◌, ◌*◌, ◌^◌, ◌<◌, ◌≤◌, eqb, length};
ghost use Rattle.std.proofs.lemmas.List.Edits.{sets};
ghost use Rattle.lists.specs.Tab.{pick};
ghost use Rattle.answer.specs.Refusal.{answer_of, number_of};
ghost use Rattle.bitwise.specs.Row.{row_of_xyz, row-index, bitwise_row_refusal, index_refusal, bitwise_row_after};

use answer::Refusal;
use bitwise::{NUM_PRECOMPUTED_COLS, NUM_ROWS};

pub mod trace;

// The halfword shifted left, nothing lost.
fn shifted(half: u64, z: u64) -> u64
    requires { (half < 65536) × (z < 16) }
    ensures { result ≡ half * 2 ^ z }
{
    half << z
}

// 1 where all three are 0.
fn is_zero(x: u64, y: u64, z: u64) -> u64
    ensures { result ≡ pick (eqb x 0 && (eqb y 0 && eqb z 0)) 1 0 }
{
    if x != 0 {
        return 0;
    }
    if y != 0 {
        return 0;
    }
    if z != 0 {
        return 0;
    }
    1
}

fn put_row(row: &mut [u64], x: u64, y: u64, z: u64)
    requires { (11 ≤ length row.old) × (x < 256) × (y < 256) × (z < 16) }
    ensures { row.new ≡ sets row.old 0 (row_of_xyz x y z) }
{
    let half = x + y * 256;
    let wide = shifted(half, z);
    let zero = is_zero(x, y, z);
    row[0] = x;
    row[1] = y;
    row[2] = z;
    row[3] = x & y;
    row[4] = x | y;
    row[5] = x ^ y;
    row[6] = x / 128 % 2;
    row[7] = half / 32768 % 2;
    row[8] = zero;
    row[9] = wide % 65536;
    row[10] = wide / 65536;
}

// The eleven fixed columns of row `index`.
#[tactic(auto, unfolding(bitwise::specs::Row::bitwise_row_refusal, answer::specs::Refusal::refuse_if, answer::specs::Refusal::answer_of, answer::specs::Refusal::afterwards))]
pub fn generate_bitwise_row(index: usize, row: &mut [u64]) -> Result<(), Refusal>
    ensures answer { result ≡ answer_of (bitwise_row_refusal index row.old) }
    ensures words { row.new ≡ bitwise_row_after index row.old }
{
    if index >= NUM_ROWS {
        return Err(Refusal::PastEnd(NUM_ROWS as u64));
    }
    if row.len() < NUM_PRECOMPUTED_COLS {
        return Err(Refusal::TooShort(NUM_PRECOMPUTED_COLS as u64));
    }
    let i = index as u64;
    put_row(row, i % 256, i / 256 % 256, i / 65536 % 16);
    Ok(())
}

// The index of the row of x, y and z.
pub fn row_of(x: u8, y: u8, z: u8) -> usize
    requires { z < 16 }
    ensures { result ≡ row-index x y z }
{
    x as usize + y as usize * 256 + z as usize * 65536
}

// The same for any z: 16 or more is refused.
#[tactic(auto, unfolding(bitwise::specs::Row::index_refusal, answer::specs::Refusal::refuse_if, answer::specs::Refusal::number_of))]
pub fn row_index(x: u8, y: u8, z: u8) -> Result<u64, Refusal>
    ensures { result ≡ number_of (row-index x y z) (index_refusal z) }
{
    if 16 <= z {
        return Err(Refusal::PastEnd(16));
    }
    let index = row_of(x, y, z);
    Ok(index as u64)
}
