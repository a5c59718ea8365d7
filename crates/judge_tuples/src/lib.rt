// The Keccak tuples of core rows and round rows, compared by the columns that they are made of.
#![tactic(auto)]

ghost use Rattle.std.specs.Prelude.{◌≡◌, ◌+◌, ◌≤◌, length};
ghost use Rattle.lists.specs.Select.{words_test};
ghost use Rattle.field.specs.Field.{fadd};
ghost use Rattle.judge_tuples.specs.Port.{width_of, lane_at, rest_at, round_of, tuple_of, same_state};

use field::Fe;
use fips202::first_round;
use judge_scan::same_stamp;
use keccak;
use keccak_rnd;
use lists::same_words;

// The four Keccak tuples: a core row sends INPUT, with so many rounds to come, and receives OUTPUT; a round row receives
// START and sends the state after its round.
#[derive(Clone, Copy)]
pub enum Port {
    CoreSend(usize),
    CoreReceive,
    RoundReceive,
    RoundSend,
}

// The column of lane (0, 0), and where that of the other lanes would begin: a round row has lane (0, 0) after iota
// apart.
fn lane_at(port: Port) -> usize
    ensures { result ≡ lane_at port }
{
    match port {
        Port::CoreSend(_) => keccak::INPUT_STATE,
        Port::CoreReceive => keccak::OUTPUT_STATE,
        Port::RoundReceive => keccak_rnd::START,
        Port::RoundSend => keccak_rnd::IOTA,
    }
}

fn rest_at(port: Port) -> usize
    ensures { result ≡ rest_at port }
{
    match port {
        Port::CoreSend(_) => keccak::INPUT_STATE,
        Port::CoreReceive => keccak::OUTPUT_STATE,
        Port::RoundReceive => keccak_rnd::START,
        Port::RoundSend => keccak_rnd::CHI,
    }
}

// ROUND + 1 mod p; any word may stand in ROUND.
fn next(round: u64) -> u64
    ensures { result ≡ fadd round 1 }
{
    if round < Fe::P - 1 {
        round + 1
    } else {
        round - (Fe::P - 1)
    }
}

// The round that a tuple names.
pub fn round_of(row: &[u64], port: Port) -> u64
    requires { width_of port ≤ length row.now }
    ensures { result ≡ round_of port row.now }
{
    match port {
        Port::CoreSend(nr) => first_round(nr),
        Port::CoreReceive => keccak_rnd::ROUNDS as u64,
        Port::RoundReceive => row[keccak_rnd::ROUND],
        Port::RoundSend => next(row[keccak_rnd::ROUND]),
    }
}

// Whether two tuples have one state.
fn same_state(x: &[u64], s: Port, y: &[u64], q: Port) -> bool
    requires { (width_of s ≤ length x.now) × (width_of q ≤ length y.now) }
    ensures { result ≡ same_state s x.now q y.now }
{
    let here = lane_at(s);
    let there = lane_at(q);
    if !same_words(x, here, y, there, 8) {
        return false;
    }
    let from = rest_at(s) + 8;
    let to = rest_at(q) + 8;
    same_words(x, from, y, to, 192)
}

// Whether tuple s of the row x is tuple q of the row y. Timestamps come first: most rows differ there.
pub fn same_tuple(x: &[u64], s: Port, y: &[u64], q: Port) -> bool
    requires { (width_of s ≤ length x.now) × (width_of q ≤ length y.now) }
    ensures { result ≡ words_test (tuple_of s x.now) (tuple_of q y.now) }
{
    if !same_stamp(x, y) {
        return false;
    }
    if round_of(x, s) != round_of(y, q) {
        return false;
    }
    same_state(x, s, y, q)
}
