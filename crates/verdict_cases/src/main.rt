// Prints what the verdict says of small tables, which the proved writers make for two operations and of which some are
// then damaged: a line for each, with its name and the verdict's four words; and then what is said of jobs of two segments,
// a line for each verdict of a report. The file `stdout` has the same lines from another judge, over the tables of the
// published Rust.
#![tactic(auto)]

ghost use Rattle.std.specs.Prelude.{◌≡◌, ◌+◌, ◌*◌, ◌≤◌, ◌<◌, length};
ghost use Rattle.keccak.specs.Row.{OP-WORDS};

use job::job;
use judge::verdict;
use judge_words::verdict_words;
use keccak::{OP_WORDS, SEGMENT_WORD};
use keccak_rnd::{CHI, IOTA, MU, NUM_COLUMNS, RC, ROUND};
use keccak_rnd_trace::generate_keccak_rnd_trace;
use keccak_trace::generate_keccak_trace;
use lists::put_words;
use permutation::State;
use std::io;

// The first timestamp: 5, and 7 above 2^32.
const STAMP: u64 = 30064771077;

// A multiple of 8; the pointers from it on cross from one limb into the next.
const ADDRESS: u64 = 140737488355136;

// p, the first word that is no field element.
const P: u64 = 18446744069414584321;

// Of Keccak-f[1600].
const ROUNDS: u64 = 24;

// The least height of both tables.
const FLOOR: u64 = 4;

fn print_next(rt: &impl Print, n: u64) -> io::Result<()> {
    print!(rt; " {n}")
}

fn print_words(rt: &impl Print, words: [u64; 4]) -> io::Result<()> {
    print_next(rt, words[0])?;
    print_next(rt, words[1])?;
    print_next(rt, words[2])?;
    print_next(rt, words[3])?;
    rt.write_all(b"\n")
}

fn print_case(rt: &impl Print, name: &[u8], core: &[u64], round: &[u64]) -> io::Result<()> {
    rt.write_all(name)?;
    print_words(rt, verdict_words(verdict(ROUNDS, core, round)))
}

fn permuted(input: [u64; 25]) -> [u64; 25] {
    let output = State { lanes: input }.keccak_f();
    output.lanes
}

// The words of an operation from `at` on; its segment number, which no table holds, is the lower half of its timestamp.
fn put_operation(ops: &mut [u64], at: usize, head: [u64; 2], input: [u64; 25], output: [u64; 25])
    requires { at + OP-WORDS ≤ length ops.old }
{
    put_words(ops, at, &head, 2);
    put_words(ops, at + 2, &input, 25);
    put_words(ops, at + 27, &output, 25);
    put_words(ops, at + SEGMENT_WORD, &[head[0] % 4294967296], 1);
}

// Two operations, the second at a timestamp and an address, with their outputs or with these exchanged. Their inputs are
// the zero state permuted once and twice.
fn put_operations(ops: &mut [u64], head: [u64; 2], exchanged: bool)
    requires { 2 * OP-WORDS ≤ length ops.old }
{
    let input = permuted([0u64; 25]);
    let middle = permuted(input);
    let last = permuted(middle);
    if exchanged {
        put_operation(ops, 0, [STAMP, 4096], input, last);
        put_operation(ops, OP_WORDS, head, middle, middle);
    } else {
        put_operation(ops, 0, [STAMP, 4096], input, middle);
        put_operation(ops, OP_WORDS, head, middle, last);
    }
}

fn write_tables(core: &mut [u64], round: &mut [u64], head: [u64; 2], exchanged: bool) {
    let mut ops = [0u64; 2 * OP_WORDS];
    put_operations(&mut ops, head, exchanged);
    let _ = generate_keccak_trace(FLOOR, &ops, core);
    let _ = generate_keccak_rnd_trace(ROUNDS, FLOOR, &ops, round);
}

fn print_written(rt: &impl Print, name: &[u8], head: [u64; 2], exchanged: bool) -> io::Result<()> {
    let mut core = [0u64; 1944];
    let mut round = [0u64; 94720];
    write_tables(&mut core, &mut round, head, exchanged);
    print_case(rt, name, &core, &round)
}

// With another word in the core table.
fn print_core(rt: &impl Print, name: &[u8], at: usize, word: u64) -> io::Result<()>
    requires { at < 1944 }
{
    let mut core = [0u64; 1944];
    let mut round = [0u64; 94720];
    write_tables(&mut core, &mut round, [STAMP + 1, ADDRESS], false);
    core[at] = word;
    print_case(rt, name, &core, &round)
}

// The second core row, written for address 4096, as it would be of address 4100, which no call takes: the lowest byte of
// the address, and the lowest limb of each pointer.
fn move_by_4(core: &mut [u64])
    requires { 972 ≤ length core.old }
{
    let row = keccak::NUM_COLUMNS;
    put_words(core, row + keccak::ADDR, &[4], 1);
    for i in 0..25 {
        core[row + keccak::STATE_PTR + 3 * i] = 4100 + 8 * (i as u64);
    }
}

fn print_unaligned(rt: &impl Print, name: &[u8]) -> io::Result<()> {
    let mut core = [0u64; 1944];
    let mut round = [0u64; 94720];
    write_tables(&mut core, &mut round, [STAMP + 1, 4096], false);
    move_by_4(&mut core);
    print_case(rt, name, &core, &round)
}

// With another word in the round table.
fn print_round(rt: &impl Print, name: &[u8], at: usize, word: u64) -> io::Result<()>
    requires { at < 94720 }
{
    let mut core = [0u64; 1944];
    let mut round = [0u64; 94720];
    write_tables(&mut core, &mut round, [STAMP + 1, ADDRESS], false);
    round[at] = word;
    print_case(rt, name, &core, &round)
}

// Only the first n words of a core table and the first m of a round table.
fn print_first(
    rt: &impl Print,
    name: &[u8],
    core: &[u64],
    n: usize,
    round: &[u64],
    m: usize,
) -> io::Result<()>
    requires { (n ≤ length core.now) × (m ≤ length round.now) }
{
    print_case(rt, name, &core[..n], &round[..m])
}

fn print_cut(rt: &impl Print, name: &[u8], n: usize, m: usize) -> io::Result<()>
    requires { (n ≤ 1944) × (m ≤ 94720) }
{
    let mut core = [0u64; 1944];
    let mut round = [0u64; 94720];
    write_tables(&mut core, &mut round, [STAMP + 1, ADDRESS], false);
    print_first(rt, name, &core, n, &round, m)
}

// "A row with ROUND 24, zero constant and MU 1": row 0 with another ROUND, and with its constant taken out.
fn put_late_row(row: &mut [u64], first: &[u64])
    requires { (length row.old ≡ 1480) × (1480 ≤ length first.now) }
{
    put_words(row, 0, first, NUM_COLUMNS);
    put_words(row, ROUND, &[24], 1);
    put_words(row, RC, &[0u64; 8], 8);
    put_words(row, IOTA, &first[CHI..CHI + 8], 8);
}

// With such a row in place of the first padding row.
fn print_late(rt: &impl Print, name: &[u8]) -> io::Result<()> {
    let mut core = [0u64; 1944];
    let mut round = [0u64; 94720];
    let mut row = [0u64; 1480];
    write_tables(&mut core, &mut round, [STAMP + 1, ADDRESS], false);
    put_late_row(&mut row, &round);
    put_words(&mut round, 48 * NUM_COLUMNS, &row, NUM_COLUMNS);
    print_case(rt, name, &core, &round)
}

// Tables that hold, and each failure of core rows: MU 2, an address that is no multiple of 8, a timestamp twice.
fn print_core_cases(rt: &impl Print) -> io::Result<()> {
    print_written(rt, b"as written", [STAMP + 1, ADDRESS], false)?;
    print_cut(rt, b"no rows", 0, 0)?;
    print_core(rt, b"core value", keccak::MU, 2)?;
    print_unaligned(rt, b"core lookup")?;
    print_written(rt, b"timestamp", [STAMP, ADDRESS], true)
}

// Each failure of round rows, MU 2 and ROUND 25, and of the bus: an OUTPUT byte of 256, and a row with ROUND 24.
fn print_round_cases(rt: &impl Print) -> io::Result<()> {
    print_round(rt, b"round value", MU, 2)?;
    print_round(rt, b"round lookup", 5 * NUM_COLUMNS + ROUND, 25)?;
    print_core(
        rt,
        b"core unbalanced",
        keccak::NUM_COLUMNS + keccak::OUTPUT_STATE,
        256,
    )?;
    print_late(rt, b"round unbalanced")
}

// Each refusal.
fn print_refusals(rt: &impl Print) -> io::Result<()> {
    print_cut(rt, b"core cut", 1943, 94719)?;
    print_cut(rt, b"round cut", 1944, 94719)?;
    print_core(rt, b"core word", keccak::NUM_COLUMNS + 3, P)?;
    print_round(rt, b"round word", 94719, P)
}

// The verdicts on two segments and on their job.
fn print_report(rt: &impl Print, name: &[u8], report: [u64; 12]) -> io::Result<()> {
    rt.write_all(name)?;
    rt.write_all(b" segment 0")?;
    print_words(rt, [report[0], report[1], report[2], report[3]])?;
    rt.write_all(name)?;
    rt.write_all(b" segment 1")?;
    print_words(rt, [report[4], report[5], report[6], report[7]])?;
    print_last(rt, name, [report[8], report[9], report[10], report[11]])
}

fn print_last(rt: &impl Print, name: &[u8], words: [u64; 4]) -> io::Result<()> {
    rt.write_all(name)?;
    rt.write_all(b" job")?;
    print_words(rt, words)
}

fn print_refused(rt: &impl Print, name: &[u8], number: u64, detail: u64) -> io::Result<()> {
    rt.write_all(name)?;
    rt.write_all(b" refused")?;
    print_next(rt, number)?;
    print_next(rt, detail)?;
    rt.write_all(b"\n")
}

fn print_job<'a>(
    rt: &impl Print,
    name: &[u8],
    core: &'a [u64],
    round: &'a [u64],
    counts: [u64; 4],
) -> io::Result<()> {
    let mut report = [0u64; 12];
    match job(ROUNDS, core, round, &counts, &mut report) {
        Ok(()) => print_report(rt, name, report),
        Err(refusal) => print_refused(rt, name, refusal.number(), refusal.detail()),
    }
}

// The tables of an operation with this timestamp, address and input, behind so many words of two slices.
fn write_segment(
    core: &mut [u64],
    at: usize,
    round: &mut [u64],
    from: usize,
    head: [u64; 2],
    input: [u64; 25],
)
    requires { (at + 1944 ≤ length core.old) × (from + 47360 ≤ length round.old) }
{
    let mut op = [0u64; OP_WORDS];
    let mut core_table = [0u64; 1944];
    let mut round_table = [0u64; 47360];
    put_operation(&mut op, 0, head, input, permuted(input));
    let _ = generate_keccak_trace(FLOOR, &op, &mut core_table);
    let _ = generate_keccak_rnd_trace(ROUNDS, FLOOR, &op, &mut round_table);
    put_words(core, at, &core_table, 1944);
    put_words(round, from, &round_table, 47360);
}

// Two segments of one operation each, the second with this timestamp. Their inputs are those of the operations above.
fn write_segments(core: &mut [u64], round: &mut [u64], timestamp: u64)
    requires { (3888 ≤ length core.old) × (94720 ≤ length round.old) }
{
    let input = permuted([0u64; 25]);
    write_segment(core, 0, round, 0, [STAMP, 4096], input);
    write_segment(
        core,
        1944,
        round,
        47360,
        [timestamp, ADDRESS],
        permuted(input),
    );
}

fn print_segments(
    rt: &impl Print,
    name: &[u8],
    timestamp: u64,
    counts: [u64; 4],
) -> io::Result<()> {
    let mut core = [0u64; 3888];
    let mut round = [0u64; 94720];
    write_segments(&mut core, &mut round, timestamp);
    print_job(rt, name, &core, &round, counts)
}

// Jobs of two segments: as written; with the second call's first round row filed with the first segment, so that both
// segments fail and the job holds; with one timestamp in both; and with counts whose sum is right mod 2^64 alone.
fn print_jobs(rt: &impl Print) -> io::Result<()> {
    print_segments(rt, b"two segments", STAMP + 1, [4, 32, 4, 32])?;
    print_segments(rt, b"misfiled", STAMP + 1, [4, 33, 4, 31])?;
    print_segments(rt, b"shared timestamp", STAMP, [4, 32, 4, 32])?;
    print_segments(
        rt,
        b"sums that wrap",
        STAMP + 1,
        [12, 64, 18446744073709551612, 0],
    )
}

fn main(rt: HostRuntime) -> io::Result<()> {
    print_core_cases(&rt)?;
    print_round_cases(&rt)?;
    print_refusals(&rt)?;
    print_jobs(&rt)
}
