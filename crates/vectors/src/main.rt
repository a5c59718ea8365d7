// Prints values of FIPS 202, which the file `stdout` has from elsewhere: Keccak-f[1600] of the zero state and of what
// comes out, then SHA3-256 of seven messages, then two of RFC 9861 that Keccak-p[1600, 12] gives, then SHA3-256 of seven
// messages as the last of their operations has it. One line each, in lower-case hexadecimal.
#![tactic(auto)]

ghost use Rattle.std.specs.Prelude.{◌≡◌, ◌*◌, ◌<◌, ◌≤◌, length};
ghost use Rattle.lists.specs.Tab.{tab};
ghost use Rattle.bits.specs.Bits.{lane_byte};
ghost use Rattle.keccak.specs.Row.{OP-WORDS};

use keccak::OP_WORDS;
use message::{judge_message, message_operations};
use operations::lanes_at;
use permutation::State;
use sha3::sha3_256;
use std::io;

// The character of a number below 16.
fn digit(n: u8) -> u8
    requires { n < 16 }
{
    if n < 10 { b'0' + n } else { b'a' + (n - 10) }
}

// The state's 200 bytes, lane by lane, lowest byte first.
fn state_bytes(state: State) -> [u8; 200]
    ensures { result ≡ tab 200 (lane_byte state.lanes) }
{
    let lanes = state.lanes;
    let mut bytes = [0u8; 200];
    for k in 0..200 {
        bytes[k] = ((lanes[k / 8] >> (8 * (k % 8))) % 256) as u8;
    }
    bytes
}

// Writes a line of two digits for each byte.
fn print_line(rt: &impl Print, bytes: &[u8]) -> io::Result<()>
    requires { length bytes.now ≤ 200 }
{
    let n = bytes.len();
    let mut line = [b'\n'; 401];
    for k in 0..n {
        let byte = bytes[k];
        line[2 * k] = digit(byte / 16);
        line[2 * k + 1] = digit(byte % 16);
    }
    rt.write_all(&line[..2 * n + 1])
}

fn print_state(rt: &impl Print, state: State) -> io::Result<()> {
    print_line(rt, &state_bytes(state))
}

// The first 32 bytes of a state.
fn print_start(rt: &impl Print, state: State) -> io::Result<()> {
    let bytes = state_bytes(state);
    print_line(rt, &bytes[..32])
}

fn print_digest(rt: &impl Print, message: &[u8]) -> io::Result<()> {
    print_line(rt, &sha3_256(message))
}

// TurboSHAKE128 of a message of one block, 32 bytes of it. A block is 168 bytes, here zeros but for those that `first` has
// as a lane, and 80, which padding adds to the last.
fn print_turboshake(rt: &impl Print, first: u64) -> io::Result<()> {
    let mut lanes = [0u64; 25];
    lanes[0] = first;
    lanes[20] = 0x8000000000000000;
    print_start(rt, State { lanes }.keccak_p(12))
}

fn permutations(rt: &impl Print) -> io::Result<()> {
    let once = State { lanes: [0u64; 25] }.keccak_f();
    print_state(rt, once)?;
    print_state(rt, once.keccak_f())
}

// The empty message, and two short ones that hash examples commonly have.
fn short_messages(rt: &impl Print) -> io::Result<()> {
    print_digest(rt, b"")?;
    print_digest(rt, b"abc")?;
    print_digest(
        rt,
        b"abcdbcdecdefdefgefghfghighijhijkijkljklmklmnlmnomnopnopq",
    )
}

// NIST's example of 1,600 bits, and lengths about a block's 136 bytes.
fn long_messages(rt: &impl Print) -> io::Result<()> {
    let bytes = [0xA3u8; 200];
    print_digest(rt, &bytes)?;
    print_digest(rt, &bytes[..135])?;
    print_digest(rt, &bytes[..136])?;
    print_digest(rt, &bytes[..137])
}

// TurboSHAKE128 of the empty message, which the byte D = 1F ends; and KangarooTwelve of the empty message, which is
// TurboSHAKE128 of one byte 0, ended by D = 07.
fn twelve_rounds(rt: &impl Print) -> io::Result<()> {
    print_turboshake(rt, 0x1F)?;
    print_turboshake(rt, 0x0700)
}

// The first 32 bytes of the output of the last of n operations.
fn print_last(rt: &impl Print, ops: &[u64], n: usize) -> io::Result<()>
    requires { (0 < n) × (n * OP-WORDS ≤ length ops.now) }
{
    let lanes = lanes_at(ops, (n - 1) * OP_WORDS + 27);
    print_start(rt, State { lanes })
}

// The digest that a message's operations end with, where they are written and judged to be the message's.
fn print_written(rt: &impl Print, message: &[u8], ops: &mut [u64]) -> io::Result<()> {
    if let Ok(n) = message_operations(message, 4096, 5, ops) {
        let n = n as usize;
        if let Ok(true) = judge_message(message, &ops[..n * OP_WORDS]) {
            print_last(rt, ops, n)?;
        }
    }
    Ok(())
}

fn print_message(rt: &impl Print, message: &[u8]) -> io::Result<()> {
    let mut ops = [0u64; 3 * OP_WORDS];
    print_written(rt, message, &mut ops)
}

// The same messages, and one of two whole blocks.
fn operations_of_messages(rt: &impl Print) -> io::Result<()> {
    let bytes = [0xA3u8; 272];
    print_message(rt, b"")?;
    print_message(rt, b"abc")?;
    print_message(rt, &bytes[..200])?;
    print_message(rt, &bytes[..135])?;
    print_message(rt, &bytes[..136])?;
    print_message(rt, &bytes[..137])?;
    print_message(rt, &bytes)
}

fn main(rt: HostRuntime) -> io::Result<()> {
    permutations(&rt)?;
    short_messages(&rt)?;
    long_messages(&rt)?;
    twelve_rounds(&rt)?;
    operations_of_messages(&rt)
}
