// Halfwords: one of eight bytes; and one times a power of two, in its low sixteen bits and its carry, so that nothing
// is lost.
#![tactic(auto)]

ghost use Rattle.std.specs.Prelude.{◌≡◌, ◌+◌, ◌*◌, ◌^◌, ◌<◌};
ghost use Rattle.lists.specs.Tab.{word};
ghost use Rattle.bits.specs.Bits.{byte_at, lane_of, halfword, hwsl, hwsl_carry, left_byte, right_byte};

fn wide(x: u8) -> u64
    ensures { (result ≡ x) × (result < 256) }
{
    x as u64
}

// Halfword h of eight bytes.
pub fn half_of(c: [u8; 8], h: usize) -> u64
    requires { h < 4 }
    ensures { (result ≡ halfword (word c) h) × (result < 65536) }
{
    wide(c[2 * h]) + wide(c[2 * h + 1]) * 256
}

// The two parts of a shifted halfword; or of a lane, halfword by halfword.
#[derive(Clone, Copy)]
pub struct Shifted {
    pub low: u64,
    pub carry: u64,
}

// The halfword shifted by 0 to 15.
pub fn hwsl(half: u64, shift: u32) -> Shifted
    requires { (half < 65536) × (shift < 16) }
    ensures parts { (result.low ≡ hwsl half shift) × (result.carry ≡ hwsl_carry half shift) }
    ensures lossless { (result.low + 65536 * result.carry ≡ half * 2 ^ shift) × (result.carry < 65536) }
{
    let wide = half << shift;
    Shifted {
        low: wide % 65536,
        carry: wide / 65536,
    }
}

// The four halfwords of a lane, each shifted.
pub fn shift_lane(lane: u64, shift: u32) -> Shifted
    requires { shift < 16 }
    ensures { (result.low ≡ lane_of (left_byte (byte_at lane) shift)) × (result.carry ≡ lane_of (right_byte (byte_at lane) shift)) }
{
    let a = hwsl(lane % 65536, shift);
    let b = hwsl((lane >> 16) % 65536, shift);
    let c = hwsl((lane >> 32) % 65536, shift);
    let d = hwsl((lane >> 48) % 65536, shift);
    Shifted {
        low: a.low + b.low * 65536 + c.low * 4294967296 + d.low * 281474976710656,
        carry: a.carry + b.carry * 65536 + c.carry * 4294967296 + d.carry * 281474976710656,
    }
}
