// θ by tables of bytes: the column parities C in their four stages, and C rotated by one in its two parts.
#![tactic(auto)]

ghost use Rattle.std.specs.Prelude.{◌≡◌, ◌<◌};
ghost use Rattle.lists.specs.Tab.{tab, word};
ghost use Rattle.bits.specs.Bits.{byte_at, halfword, hwsl, hwsl_carry};
ghost use Rattle.keccak_rnd.specs.Parts.{stages_of, cxz_table, parity_bytes, left_bytes, right_bits};

use keccak_rnd_halfword::{half_of, hwsl};

// The eight bytes of a lane, lowest first.
fn bytes_of(lane: u64) -> [u8; 8]
    ensures { result ≡ tab 8 (byte_at lane) }
{
    [
        (lane % 256) as u8,
        ((lane >> 8) % 256) as u8,
        ((lane >> 16) % 256) as u8,
        ((lane >> 24) % 256) as u8,
        ((lane >> 32) % 256) as u8,
        ((lane >> 40) % 256) as u8,
        ((lane >> 48) % 256) as u8,
        ((lane >> 56) % 256) as u8,
    ]
}

// Column x of C: two lanes, then one lane more at each stage.
fn stages(s: [u64; 25], x: usize) -> [[u8; 8]; 4]
    requires { x < 5 }
    ensures { result ≡ stages_of s x }
{
    let a = s[x] ^ s[x + 5];
    let b = a ^ s[x + 10];
    let c = b ^ s[x + 15];
    let d = c ^ s[x + 20];
    [bytes_of(a), bytes_of(b), bytes_of(c), bytes_of(d)]
}

// The four stages of the five columns.
pub fn cxz_table(s: [u64; 25]) -> [[[u8; 8]; 4]; 5]
    ensures { result ≡ cxz_table s }
{
    [
        stages(s, 0),
        stages(s, 1),
        stages(s, 2),
        stages(s, 3),
        stages(s, 4),
    ]
}

// The low sixteen bits of halfword h, shifted by one.
fn low_half(c: [u8; 8], h: usize) -> u64
    requires { h < 4 }
    ensures { result ≡ hwsl (halfword (word c) h) 1 }
{
    let shifted = hwsl(half_of(c, h), 1);
    shifted.low
}

// The carry of halfword h, shifted by one: a bit.
fn carry_bit(c: [u8; 8], h: usize) -> u8
    requires { h < 4 }
    ensures { result ≡ hwsl_carry (halfword (word c) h) 1 }
{
    let shifted = hwsl(half_of(c, h), 1);
    shifted.carry as u8
}

fn left_bytes(c: [u8; 8]) -> [u8; 8]
    ensures { result ≡ left_bytes c }
{
    let a = low_half(c, 0);
    let b = low_half(c, 1);
    let d = low_half(c, 2);
    let e = low_half(c, 3);
    [
        (a % 256) as u8,
        (a / 256) as u8,
        (b % 256) as u8,
        (b / 256) as u8,
        (d % 256) as u8,
        (d / 256) as u8,
        (e % 256) as u8,
        (e / 256) as u8,
    ]
}

fn right_bits(c: [u8; 8]) -> [u8; 4]
    ensures { result ≡ right_bits c }
{
    [
        carry_bit(c, 0),
        carry_bit(c, 1),
        carry_bit(c, 2),
        carry_bit(c, 3),
    ]
}

// The low parts of C rotated by one.
pub fn left_table(cxz: [[[u8; 8]; 4]; 5]) -> [[u8; 8]; 5]
    ensures { result ≡ tab 5 (λ x. left_bytes (parity_bytes cxz x)) }
{
    [
        left_bytes(cxz[0][3]),
        left_bytes(cxz[1][3]),
        left_bytes(cxz[2][3]),
        left_bytes(cxz[3][3]),
        left_bytes(cxz[4][3]),
    ]
}

// The carries of C rotated by one.
pub fn right_table(cxz: [[[u8; 8]; 4]; 5]) -> [[u8; 4]; 5]
    ensures { result ≡ tab 5 (λ x. right_bits (parity_bytes cxz x)) }
{
    [
        right_bits(cxz[0][3]),
        right_bits(cxz[1][3]),
        right_bits(cxz[2][3]),
        right_bits(cxz[3][3]),
        right_bits(cxz[4][3]),
    ]
}
