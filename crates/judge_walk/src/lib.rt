// The walk along the Keccak bus over rows in the writer's order: how far both tables balance among themselves.
#![tactic(auto)]

ghost use Rattle.std.specs.Prelude.{◌≡◌, ◌≤◌, ◌<◌};
ghost use Rattle.verdict.specs.Kind.{rows};
ghost use Rattle.verdict.specs.CoreAndRound.{core_layout, round_layout};
ghost use Rattle.judge_walk.specs.Walk.{chain_from, active_from, walked};

use judge_links::{ends, takes};
use judge_scan::is_active;
use keccak;
use keccak_rnd;
use verdict::Table;

// The round row after the chain of core row a that begins at row b: each active row receives what the one before it
// sent, the first what the core row sent, and the core row receives what the last one sent.
fn chain(nr: usize, core: &[u64], a: usize, round: &[u64], b: usize) -> Option<usize>
    requires { (a < rows core_layout core.now) × (b ≤ rows round_layout round.now) }
    ensures { result ≡ chain_from nr core.now a round.now b }
{
    let rows = round.len() / keccak_rnd::NUM_COLUMNS;
    let mut last = None;
    for q in b..rows {
        if is_active(round, Table::Round, q) {
            if !takes(nr, core, a, round, last, q) {
                return None;
            }
            if ends(core, a, round, q) {
                let next = q + 1;
                return Some(next);
            }
            last = Some(q);
        }
    }
    None
}

// The first round row from b on that is active, or the end.
fn active_from(round: &[u64], b: usize) -> usize
    requires { b ≤ rows round_layout round.now }
    ensures { result ≡ active_from round.now b }
{
    let rows = round.len() / keccak_rnd::NUM_COLUMNS;
    for q in b..rows {
        if is_active(round, Table::Round, q) {
            return q;
        }
    }
    rows
}

// How far the walk came: so many core rows and round rows at the front balance among themselves.
#[derive(Clone, Copy)]
pub struct Walked {
    pub core: usize,
    pub round: usize,
}

// The walk stops at the first core row that has no chain where it should begin.
pub fn walk(nr: usize, core: &[u64], round: &[u64]) -> Walked
    ensures { result ≡ walked nr core.now round.now }
{
    let rows = core.len() / keccak::NUM_COLUMNS;
    let mut b = 0;
    for a in 0..rows {
        if is_active(core, Table::Core, a) {
            let Some(next) = chain(nr, core, a, round, b) else {
                return Walked {
                    core: a,
                    round: active_from(round, b),
                };
            };
            b = next;
        }
    }
    Walked {
        core: rows,
        round: active_from(round, b),
    }
}
