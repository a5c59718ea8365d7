// Whether one row of the Keccak bus receives what another one sends, the links of the chain of a core row; and how often rows
// send and receive the tuples of a row.
#![tactic(auto)]

ghost use Rattle.std.specs.Prelude.{◌≡◌, ◌<◌, ◌+◌, ◌^◌, ◌≤◌, length};
ghost use Rattle.verdict.specs.Kind.{rows, stamped_at};
ghost use Rattle.verdict.specs.CoreAndRound.{core_layout, round_layout};
ghost use Rattle.judge_links.specs.Even.{takes_at, ends_at, Started};
ghost use Rattle.lists.specs.Tab.{pick};
ghost use Rattle.lists.specs.Select.{words_test};
ghost use Rattle.judge_scan.specs.Tables.{layout_of};
ghost use Rattle.judge_tuples.specs.Port.{width_of, tuple_of};
ghost use Rattle.judge_links.specs.Counting.{sent_by, received_by, with_row, counts_to};

use judge_scan::{is_active, row_at, same_stamp, width_of};
use judge_tuples::{Port, same_tuple};
use verdict::Table;

// Whether round row q receives what is owed: what core row a sent, or what the last row of its chain sent.
pub fn takes(
    nr: usize,
    core: &[u64],
    a: usize,
    round: &[u64],
    last: Option<usize>,
    q: usize,
) -> bool
    requires { (a < rows core_layout core.now) × (q < rows round_layout round.now) × Started round.now last }
    ensures { result ≡ takes_at nr core.now a round.now last q }
{
    let y = row_at(round, Table::Round, q);
    match last {
        None => {
            let x = row_at(core, Table::Core, a);
            same_tuple(x, Port::CoreSend(nr), y, Port::RoundReceive)
        }
        Some(r) => {
            let x = row_at(round, Table::Round, r);
            same_tuple(x, Port::RoundSend, y, Port::RoundReceive)
        }
    }
}

// Whether core row a receives what round row q sends.
pub fn ends(core: &[u64], a: usize, round: &[u64], q: usize) -> bool
    requires { (a < rows core_layout core.now) × (q < rows round_layout round.now) }
    ensures { result ≡ ends_at core.now a round.now q }
{
    let x = row_at(round, Table::Round, q);
    let y = row_at(core, Table::Core, a);
    same_tuple(x, Port::RoundSend, y, Port::CoreReceive)
}

// The tuple that a row of a table sends, with nr rounds to come.
fn sent_by(nr: usize, table: Table) -> Port
    ensures { result ≡ sent_by nr table }
{
    match table {
        Table::Core => Port::CoreSend(nr),
        Table::Round => Port::RoundSend,
    }
}

// The one that it receives.
fn received_by(table: Table) -> Port
    ensures { result ≡ received_by table }
{
    match table {
        Table::Core => Port::CoreReceive,
        Table::Round => Port::RoundReceive,
    }
}

// How often rows send a tuple, and how often they receive it.
#[derive(Clone, Copy)]
pub struct Counts {
    pub sent: usize,
    pub received: usize,
}

// The counts of two tuples of one row.
#[derive(Clone, Copy)]
pub struct Both {
    pub first: Counts,
    pub second: Counts,
}

// A count, with one more if there is one.
fn plus(n: usize, one: bool) -> usize
    requires { n < 2 ^ 63 }
    ensures { result ≡ pick one (n + 1) n }
{
    if one {
        return n + 1;
    }
    n
}

// The counts of the tuple s of the row x, with the row y added.
fn add(y: &[u64], send: Port, receive: Port, x: &[u64], s: Port, t: Counts) -> Counts
    requires { (width_of send ≤ length y.now) × (width_of receive ≤ length y.now) × (width_of s ≤ length x.now) × (t.sent < 2 ^ 63) × (t.received < 2 ^ 63) }
    ensures { result ≡ with_row t (words_test (tuple_of s x.now) (tuple_of send y.now)) (words_test (tuple_of s x.now) (tuple_of receive y.now)) }
{
    let sends = same_tuple(x, s, y, send);
    let receives = same_tuple(x, s, y, receive);
    Counts {
        sent: plus(t.sent, sends),
        received: plus(t.received, receives),
    }
}

// Whether a row has the timestamp of the row x and is active. MU comes last: in a round row it stands 1,479 words after
// the timestamp begins, on another page.
fn of_call(x: &[u64], words: &[u64], table: Table, row: usize) -> bool
    requires { (2 ≤ length x.now) × (row < rows (layout_of table) words.now) }
    ensures { result ≡ stamped_at (layout_of table) words.now x.now row }
{
    let y = row_at(words, table, row);
    if !same_stamp(x, y) {
        return false;
    }
    is_active(words, table, row)
}

// How often the rows of a table from `from` on send the tuples s and q of the row x, and receive them. Both tuples have
// the row's timestamp, so one test of it passes over a row for both.
pub fn count(
    nr: usize,
    words: &[u64],
    table: Table,
    from: usize,
    x: &[u64],
    s: Port,
    q: Port,
) -> Both
    requires { (from ≤ rows (layout_of table) words.now) × (width_of s ≤ length x.now) × (width_of q ≤ length x.now) }
    ensures { (result.first ≡ counts_to nr table words.now (tuple_of s x.now) from (rows (layout_of table) words.now)) × (result.second ≡ counts_to nr table words.now (tuple_of q x.now) from (rows (layout_of table) words.now)) }
{
    let send = sent_by(nr, table);
    let receive = received_by(table);
    let rows = words.len() / width_of(table);
    let mut first = Counts {
        sent: 0,
        received: 0,
    };
    let mut second = Counts {
        sent: 0,
        received: 0,
    };
    for row in from..rows {
        if of_call(x, words, table, row) {
            let y = row_at(words, table, row);
            first = add(y, send, receive, x, s, first);
            second = add(y, send, receive, x, q, second);
        }
    }
    Both { first, second }
}
