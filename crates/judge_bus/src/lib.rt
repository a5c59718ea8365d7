// The first unbalanced tuple on the Keccak bus of a core table and a round table: counts of the rows that the walk
// left.
#![tactic(auto)]

ghost use Rattle.std.specs.Prelude.{◌≡◌, not, ◌+◌, ◌^◌, ◌≤◌, ◌<◌, eqb, length};
ghost use Rattle.verdict.specs.Kind.{rows};
ghost use Rattle.verdict.specs.Verdict.{uneven, first_unbalanced};
ghost use Rattle.verdict.specs.CoreAndRound.{core_layout, round_layout, core_kind, round_kind};
ghost use Rattle.judge_scan.specs.Spot.{spot_of};
ghost use Rattle.judge_scan.specs.Tables.{kind_of, layout_of};
ghost use Rattle.judge_tuples.specs.Port.{tuple_of};
ghost use Rattle.judge_links.specs.Even.{Even};
ghost use Rattle.judge_bus.specs.Order.{first_port, second_port, first_index};

use judge_links::{Counts, count};
use judge_scan::{Spot, is_active, row_at, width_of};
use judge_tuples::Port;
use verdict::Table;

// Whether the counts of both tables are different numbers of sends and receives.
fn differ(t: Counts, u: Counts) -> bool
    requires { (t.sent < 2 ^ 63) × (t.received < 2 ^ 63) × (u.sent < 2 ^ 63) × (u.received < 2 ^ 63) }
    ensures { result ≡ not (eqb (t.sent + u.sent) (t.received + u.received)) }
{
    t.sent + u.sent != t.received + u.received
}

// Which of two tuples are sent and received in different numbers.
#[derive(Clone, Copy)]
struct Unbalanced {
    first: bool,
    second: bool,
}

// The tuples of a row on the bus in the order of their indexes: a core row's send comes first, a round row's receive.
fn first_port(nr: usize, table: Table) -> Port
    ensures { result ≡ first_port nr table }
{
    match table {
        Table::Core => Port::CoreSend(nr),
        Table::Round => Port::RoundReceive,
    }
}

fn second_port(table: Table) -> Port
    ensures { result ≡ second_port table }
{
    match table {
        Table::Core => Port::CoreReceive,
        Table::Round => Port::RoundSend,
    }
}

// The index of the first of them; that of the second is the next.
fn first_index(table: Table) -> usize
    ensures { result ≡ first_index table }
{
    match table {
        Table::Core => 2,
        Table::Round => 0,
    }
}

// Which of the two tuples of the row x of a table are. What the walk passed is even, so only the rows that it left are
// counted.
fn unbalanced_tuples(
    nr: usize,
    core: &[u64],
    round: &[u64],
    a: usize,
    b: usize,
    x: &[u64],
    table: Table,
) -> Unbalanced
    requires { (a ≤ rows core_layout core.now) × (b ≤ rows round_layout round.now) × Even nr core.now round.now a b × ((layout_of table).width ≤ length x.now) }
    ensures { (result.first ≡ uneven (core_kind nr) round_kind core.now round.now (tuple_of (first_port nr table) x.now)) × (result.second ≡ uneven (core_kind nr) round_kind core.now round.now (tuple_of (second_port table) x.now)) }
{
    let s = first_port(nr, table);
    let q = second_port(table);
    let t = count(nr, core, Table::Core, a, x, s, q);
    let u = count(nr, round, Table::Round, b, x, s, q);
    Unbalanced {
        first: differ(t.first, u.first),
        second: differ(t.second, u.second),
    }
}

// The first active row of a table, the core table or the round table, with an unbalanced tuple, and that tuple.
pub fn first_unbalanced(
    nr: usize,
    core: &[u64],
    round: &[u64],
    a: usize,
    b: usize,
    words: &[u64],
    table: Table,
) -> Option<Spot>
    requires { (a ≤ rows core_layout core.now) × (b ≤ rows round_layout round.now) × Even nr core.now round.now a b }
    ensures { result ≡ spot_of (first_unbalanced (core_kind nr) round_kind core.now round.now (kind_of nr table) words.now) }
{
    let rows = words.len() / width_of(table);
    let index = first_index(table);
    for row in 0..rows {
        if is_active(words, table, row) {
            let x = row_at(words, table, row);
            let u = unbalanced_tuples(nr, core, round, a, b, x, table);
            if u.first {
                return Some(Spot { row, index });
            }
            if u.second {
                let index = index + 1;
                return Some(Spot { row, index });
            }
        }
    }
    None
}
