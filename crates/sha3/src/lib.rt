// SHA3-256 of a message of bytes.
#![tactic(auto)]

ghost use Rattle.std.specs.Prelude.{◌≡◌, ◌+◌, ◌/◌, ◌^◌, ◌<◌, ◌≤◌, length};
ghost use Rattle.lists.specs.Tab.{tab};
ghost use Rattle.bits.specs.Bits.{lane_of, lane_byte};
ghost use Rattle.sha3.specs.Sha3.{RATE, blocks, padded_byte, block_lane, added, absorbed, sha3-256};

use permutation::State;

pub const RATE: usize = 136;

fn wide(byte: u8) -> u64
    ensures { result ≡ byte }
{
    byte as u64
}

// Byte k of the padded message.
fn padded_byte(message: &[u8], k: usize) -> u64
    ensures byte { result ≡ padded_byte message.now k }
    ensures small { result < 256 }
{
    let n = message.len();
    let last = n / RATE * RATE + (RATE - 1);
    if k < n {
        return wide(message[k]);
    }
    if k == n {
        if k == last {
            return 0x86;
        }
        return 0x06;
    }
    if k == last {
        return 0x80;
    }
    0
}

// The lane of the eight bytes from `at` on; the highest byte is taken first.
fn lane_at(message: &[u8], at: usize) -> u64
    requires { at + 8 ≤ 2 ^ 64 }
    ensures { result ≡ lane_of (λ b. padded_byte message.now (at + b)) }
{
    let mut lane: u64 = 0;
    for n in 0..8 {
        lane = lane * 256 + padded_byte(message, at + (7 - n));
    }
    lane
}

// Lane j of block i; the lanes of the capacity are 0.
fn block_lane(message: &[u8], i: usize, j: usize) -> u64
    requires { i ≤ length message.now / 136 }
    ensures { result ≡ block_lane message.now i j }
{
    if j < RATE / 8 {
        return lane_at(message, RATE * i + 8 * j);
    }
    0
}

// The state with block i added.
pub fn add_block(state: State, message: &[u8], i: usize) -> State
    requires { i ≤ length message.now / 136 }
    ensures { result.lanes ≡ added message.now i state.lanes }
{
    let s = state.lanes;
    let mut lanes = [0u64; 25];
    for j in 0..25 {
        lanes[j] = s[j] ^ block_lane(message, i, j);
    }
    State { lanes }
}

// The state after all blocks.
fn absorb(message: &[u8]) -> State
    ensures { result.lanes ≡ absorbed message.now (blocks message.now) }
{
    let n = message.len() / RATE + 1;
    let mut state = State { lanes: [0u64; 25] };
    for i in 0..n {
        state = add_block(state, message, i).keccak_f();
    }
    state
}

// The first 32 bytes of a state.
fn digest(state: State) -> [u8; 32]
    ensures { result ≡ tab 32 (lane_byte state.lanes) }
{
    let lanes = state.lanes;
    let mut d = [0u8; 32];
    for k in 0..32 {
        d[k] = ((lanes[k / 8] >> (8 * (k % 8))) % 256) as u8;
    }
    d
}

// SHA3-256 of the message.
pub fn sha3_256(message: &[u8]) -> [u8; 32]
    ensures { result ≡ sha3-256 message.now }
{
    digest(absorb(message))
}
