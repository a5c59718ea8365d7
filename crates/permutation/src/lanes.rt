// A lane rotated, and the 25 lanes of five planes: what the step mappings share.
ghost use Rattle.std.specs.Prelude.{◌≡◌, ◌++◌, ◌<◌};
ghost use Rattle.bits.specs.Bits.{rot};

// A lane with each bit moved k places up, the top ones to the bottom.
pub fn rotate_left(lane: u64, k: u32) -> u64
    requires { k < 64 }
    ensures { result ≡ rot lane k }
{
    (lane << k) | (lane >> ((64 - k) % 64))
}

// Five planes in the order of y; lane (x, y) is at x + 5 * y.
pub fn joined(a: [u64; 5], b: [u64; 5], c: [u64; 5], d: [u64; 5], e: [u64; 5]) -> [u64; 25]
    ensures { result ≡ a ++ (b ++ (c ++ (d ++ e))) }
{
    [
        a[0], a[1], a[2], a[3], a[4], b[0], b[1], b[2], b[3], b[4], c[0], c[1], c[2], c[3], c[4],
        d[0], d[1], d[2], d[3], d[4], e[0], e[1], e[2], e[3], e[4],
    ]
}
