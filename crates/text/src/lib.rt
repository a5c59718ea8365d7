// Text in a lent slice: bytes, decimals and lines, one after the other.
#![tactic(auto)]

ghost use Rattle.std.specs.Prelude.{◌≡◌, ◌+◌, ◌<◌, ◌≤◌, length, drop};
ghost use Rattle.text.specs.Text.{decimal_of, named_number, Puts};

pub mod spaced;

// The bytes s, from `at` on; answers where they end.
pub fn put(out: &mut [u8], at: usize, s: &[u8]) -> usize
    requires { at + length s.now ≤ length out.old }
    ensures { Puts out.old at s.now out.new result }
{
    for i in 0..s.len() {
        out[at + i] = s[i];
    }
    at + s.len()
}

// The digits stand from `from` on.
#[derive(Clone, Copy)]
struct Digits {
    bytes: [u8; 20],
    from: usize,
}

// The character of a digit.
fn low(x: u64) -> u8
    requires { x < 10 }
    ensures { result ≡ 48 + x }
{
    48 + x as u8
}

// The last digit comes first, at the end.
fn decimal(n: u64) -> Digits
    ensures { (length result.bytes ≡ 20) × (result.from < 20) × (drop result.from result.bytes ≡ decimal_of n) }
{
    let mut bytes = [0u8; 20];
    let mut i: usize = 19;
    let mut rest = n;
    // No `for`: a turn for each digit but the first, and their number is not known before.
    while rest >= 10 {
        bytes[i] = low(rest % 10);
        rest = rest / 10;
        i -= 1;
    }
    bytes[i] = low(rest);
    Digits { bytes, from: i }
}

// A number in decimal, with no leading zeros.
pub fn put_decimal(out: &mut [u8], at: usize, n: u64) -> usize
    requires { at + 20 ≤ length out.old }
    ensures { Puts out.old at (decimal_of n) out.new result × (result ≤ at + 20) }
{
    let d = decimal(n);
    let b = d.bytes;
    let from = d.from;
    put(out, at, &b[from..])
}

// A name, a number, and the line's end.
pub fn put_line(out: &mut [u8], at: usize, name: &[u8], n: u64) -> usize
    requires { at + length name.now + 21 ≤ length out.old }
    ensures { Puts out.old at (named_number name.now n) out.new result × (result ≤ at + length name.now + 21) }
{
    let a = put(out, at, name);
    let b = put_decimal(out, a, n);
    out[b] = 10;
    b + 1
}
