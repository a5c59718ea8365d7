// Lanes of bytes, charged: two lanes byte by byte, and the halfwords of one.
ghost use Rattle.std.specs.Prelude.{◌≡◌, ◌<◌};
ghost use Rattle.field.specs.Elements.{ElementRow};
ghost use Rattle.bitwise.specs.Columns.{NUM-COUNTERS};
ghost use Rattle.bitwise.specs.Charge.{charged_counters};
ghost use Rattle.keccak_rnd_counts.specs.Lanes.{lane_adds, halves_add};

use bitwise::{ARE_BYTES, NUM_LOOKUP_TYPES};
use bitwise_counts::charge_word;

// A counter of a kind for each byte of a with that of b.
pub fn charge_lane(counters: &mut [u64], kind: usize, a: u64, b: u64)
    requires { ElementRow NUM-COUNTERS counters.old × (kind < 10) }
    ensures { counters.new ≡ charged_counters counters.old (lane_adds kind a b) }
{
    for z in 0..8usize {
        let x = (a >> (8 * z)) % 256;
        let y = (b >> (8 * z)) % 256;
        charge_word(
            counters,
            (x + y * 256) as usize * NUM_LOOKUP_TYPES + kind,
            1,
        );
    }
}

// The two bytes of each halfword of a.
pub fn charge_halves(counters: &mut [u64], a: u64)
    requires { ElementRow NUM-COUNTERS counters.old }
    ensures { counters.new ≡ charged_counters counters.old (halves_add a) }
{
    for h in 0..4usize {
        let x = (a >> (8 * (2 * h))) % 256;
        let y = (a >> (8 * (2 * h + 1))) % 256;
        charge_word(
            counters,
            (x + y * 256) as usize * NUM_LOOKUP_TYPES + ARE_BYTES,
            1,
        );
    }
}
