// An element times a power of two, without a whole product.
ghost use Rattle.std.specs.Prelude.{◌≡◌, ◌^◌, ◌≤◌, ◌<◌};
ghost use Rattle.field.specs.Field.{p, fmul};

use field::Fe;

// x times 2^power: what passes 2^64 counts 2^32 - 1 for each 2^64.
pub fn times_power(x: Fe, power: u32) -> Fe
    requires { (x.value < p) × (power ≤ 16) }
    ensures product { result.value ≡ fmul x.value (2 ^ power) }
    ensures below { result.value < p }
{
    let v = x.value;
    let lo = v << power;
    let hi = (v >> 48) >> (16 - power);
    let low = if lo < Fe::P { lo } else { lo - Fe::P };
    Fe { value: low }.add(Fe {
        value: hi * 4294967295,
    })
}
