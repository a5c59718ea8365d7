// Prints rows, keys and tuples that the proved code computes. The file `stdout` has the same lines from the published
// Rust: it is what the oracle prints for `sample rows`, `sample lookups`, then `sample evaluations`. Each line starts
// with the kind of its item.
#![tactic(auto)]

ghost use Rattle.std.specs.Prelude.{◌+◌, ◌*◌, ◌≤◌, ◌<◌, length};
ghost use Rattle.keccak.specs.Row.{OP-WORDS};

use field::Fe;
use flat::FlatTuple;
use is_wh::IsWhKey;
use keccak::{OP_WORDS, SEGMENT_WORD};
use keccak_tables::evaluators::{
    keccak_tables_keccak_bus_interaction, keccak_tables_keccak_rnd_bus_interaction,
    keccak_tables_keccak_rnd_values, keccak_tables_keccak_values,
};
use keccak_tables::lookups::{
    keccak_tables_bitwise_bus_interaction, keccak_tables_is_wh_bus_interaction,
    keccak_tables_keccak_rc_bus_interaction,
};
use lists::put_words;
use permutation::State;
use std::io;

const FACTOR: u64 = 6364136223846793005;

// A number for the Keccak system call, 3 * 2^32 + 11: made up, since the real one is not published.
const SYSCALL: u64 = 12884901899;

// Of Keccak-f[1600].
const ROUNDS: u64 = 24;

// The published Rust's least height.
const FLOOR: u64 = 4;

// FACTOR · x + y mod p.
fn step(x: u64, y: u64) -> u64 {
    let scaled = Fe { value: FACTOR }.mul(Fe { value: x });
    let added = Fe::ONE.mul(Fe { value: y });
    let sum = scaled.add(added);
    sum.value
}

// Words are drawn one from the other.
fn next_word(word: u64) -> u64 {
    step(word, 1)
}

fn print_newline(rt: &impl Print) -> io::Result<()> {
    rt.write_all(b"\n")
}

fn print_next(rt: &impl Print, n: u64) -> io::Result<()> {
    print!(rt; " {n}")
}

fn print_words(rt: &impl Print, words: &[u64]) -> io::Result<()> {
    for &word in words {
        print_next(rt, word)?;
    }
    Ok(())
}

fn print_line(rt: &impl Print, kind: u64, number: u64, words: &[u64]) -> io::Result<()> {
    print!(rt; "{kind}")?;
    print_next(rt, number)?;
    print_words(rt, words)?;
    print_newline(rt)
}

// A line for each `width` words.
fn print_rows(rt: &impl Print, kind: u64, words: &[u64], width: usize) -> io::Result<()>
    requires { 1 ≤ width }
{
    for (number, row) in words.chunks_exact(width).enumerate() {
        print_line(rt, kind, number as u64, row)?;
    }
    Ok(())
}

// From a digest, FACTOR · digest + word for each word in turn, mod p.
fn digest(before: u64, words: &[u64]) -> u64 {
    words.iter().fold(before, |sum, &word| step(sum, word))
}

// A line with the digest of each `width` words.
fn print_digests(rt: &impl Print, kind: u64, words: &[u64], width: usize) -> io::Result<()>
    requires { 1 ≤ width }
{
    for (number, row) in words.chunks_exact(width).enumerate() {
        print_line(rt, kind, number as u64, &[digest(0, row)])?;
    }
    Ok(())
}

// n words from `at` on, drawn after a word. Answers the last one.
fn put_drawn(words: &mut [u64], at: usize, n: usize, before: u64) -> u64
    requires { at + n ≤ length words.old }
{
    let mut word = before;
    for k in 0..n {
        word = next_word(word);
        words[at + k] = word;
    }
    word
}

// Keccak-f[1600] of 25 lanes.
fn permuted(input: [u64; 25]) -> [u64; 25] {
    let output = State { lanes: input }.keccak_f();
    output.lanes
}

// An operation from `at` on, drawn after a word: timestamp, address, of which bits 3 to 47 are kept, and input; its
// output is the permuted input, its segment number the lower half of the timestamp. Answers the last word drawn.
fn put_operation(ops: &mut [u64], at: usize, before: u64) -> u64
    requires { at + OP-WORDS ≤ length ops.old }
{
    let timestamp = next_word(before);
    let address = next_word(timestamp);
    let mut input = [0u64; 25];
    let last = put_drawn(&mut input, 0, 25, address);
    let output = permuted(input);
    let head = [timestamp, address % 281474976710656 / 8 * 8];
    put_words(ops, at, &head, 2);
    put_words(ops, at + 2, &input, 25);
    put_words(ops, at + 27, &output, 25);
    put_words(ops, at + SEGMENT_WORD, &[timestamp % 4294967296], 1);
    last
}

fn put_operations(ops: &mut [u64])
    requires { 5 * OP-WORDS ≤ length ops.old }
{
    let mut word: u64 = 2;
    for k in 0..5 {
        word = put_operation(ops, OP_WORDS * k, word);
    }
}

fn core_rows(rt: &impl Print, ops: &[u64]) -> io::Result<()> {
    let mut keys = [0u64; 250];
    let _ = keccak_keys::is_wh_keys(ops, &mut keys);
    print_rows(rt, 10, &keys, 2)?;
    let mut table = [0u64; 3888];
    let _ = keccak_trace::generate_keccak_trace(FLOOR, ops, &mut table);
    print_rows(rt, 11, &table, 486)
}

fn round_rows(rt: &impl Print, ops: &[u64]) -> io::Result<()>
    requires { 2 * OP-WORDS ≤ length ops.now }
{
    let mut table = [0u64; 94720];
    let _ = keccak_rnd_trace::generate_keccak_rnd_trace(
        ROUNDS,
        FLOOR,
        &ops[..2 * OP_WORDS],
        &mut table,
    );
    print_digests(rt, 17, &table, 1480)
}

// Five operations: their words, their keys, their core table, and of the first two the round table's digests.
fn operations(rt: &impl Print) -> io::Result<()> {
    let mut ops = [0u64; 5 * OP_WORDS];
    put_operations(&mut ops);
    print_rows(rt, 9, &ops, OP_WORDS)?;
    core_rows(rt, &ops)?;
    round_rows(rt, &ops)
}

// Tuple `index` of item `number`: bus, side, multiplicity, length, and its values, for which the slice has room.
fn print_tuple(
    rt: &impl Print,
    kind: u64,
    number: u64,
    index: usize,
    tuple: FlatTuple,
    values: &[u64],
) -> io::Result<()> {
    let length = tuple.length as usize;
    if length > values.len() {
        return Ok(());
    }
    print!(rt; "{kind}")?;
    print_next(rt, number)?;
    print_words(
        rt,
        &[
            index as u64,
            tuple.bus,
            tuple.side,
            tuple.multiplicity,
            tuple.length,
        ],
    )?;
    print_words(rt, &values[0..length])?;
    print_newline(rt)
}

// The ten tuples of a bitwise row.
fn print_bitwise_tuples(rt: &impl Print, number: u64, row: &[u64]) -> io::Result<()> {
    for i in 0..10 {
        let mut out = [0u64; 4];
        let tuple = keccak_tables_bitwise_bus_interaction(row, i, &mut out);
        print_tuple(rt, 2, number, i, tuple, &out)?;
    }
    Ok(())
}

// The row of an index, with ten multiplicities drawn after a word, and its tuples. Answers the last word drawn.
fn print_drawn_bitwise(rt: &impl Print, index: u64, before: u64) -> io::Result<u64> {
    let mut row = [0u64; 21];
    let _ = bitwise_rows::generate_bitwise_row(index as usize, &mut row);
    let last = put_drawn(&mut row, 11, 10, before);
    print_line(rt, 1, index, &row)?;
    print_bitwise_tuples(rt, index, &row)?;
    Ok(last)
}

// The rows of three chosen indexes and of fifty that are drawn before all multiplicities. Answers the last word drawn.
fn bitwise_lookups(rt: &impl Print, before: u64) -> io::Result<u64> {
    let mut drawn = [0u64; 50];
    let mut word = put_drawn(&mut drawn, 0, 50, before);
    word = print_drawn_bitwise(rt, 0, word)?;
    word = print_drawn_bitwise(rt, 266804, word)?;
    word = print_drawn_bitwise(rt, 1048575, word)?;
    for k in 0..50 {
        word = print_drawn_bitwise(rt, drawn[k] % 1048576, word)?;
    }
    Ok(word)
}

// A constant row and its tuple.
fn print_constant(rt: &impl Print, round: u64, row: &[u64]) -> io::Result<()> {
    print_line(rt, 3, round, row)?;
    let mut out = [0u64; 9];
    let tuple = keccak_tables_keccak_rc_bus_interaction(row, 0, &mut out);
    print_tuple(rt, 4, round, 0, tuple, &out)
}

fn constant_lookups(rt: &impl Print) -> io::Result<()> {
    let mut table = [0u64; 320];
    let _ = keccak_rc_trace::generate_keccak_rc_trace(&mut table);
    let _ = keccak_rc_trace::update_multiplicities(ROUNDS, &mut table, 7);
    for round in 0..32 {
        print_constant(rt, round as u64, &table[10 * round..10 * round + 10])?;
    }
    Ok(())
}

// The five tuples of a row of keys.
fn print_key_tuples(rt: &impl Print, number: u64, row: &[u64]) -> io::Result<()> {
    for i in 0..5 {
        let mut out = [0u64; 2];
        let tuple = keccak_tables_is_wh_bus_interaction(row, i, &mut out);
        print_tuple(rt, 8, number, i, tuple, &out)?;
    }
    Ok(())
}

// The key of a value, its row with a multiplicity drawn after a word, and the row's tuples. Answers that multiplicity.
fn print_key(rt: &impl Print, number: u64, value: u64, before: u64) -> io::Result<u64> {
    let key = IsWhKey::of_dword(value);
    let last = next_word(before);
    let row = [value % 65536, key.half, key.word, last];
    print_line(rt, 5, number, &[value, key.word, key.half])?;
    print_line(rt, 6, number, &row)?;
    print_key_tuples(rt, number, &row)?;
    Ok(last)
}

// Five chosen values, and 45 that are drawn before all multiplicities.
fn key_lookups(rt: &impl Print, before: u64) -> io::Result<()> {
    let mut drawn = [0u64; 45];
    let mut word = put_drawn(&mut drawn, 0, 45, before);
    word = print_key(rt, 0, 0, word)?;
    word = print_key(rt, 1, 65535, word)?;
    word = print_key(rt, 2, 65536, word)?;
    word = print_key(rt, 3, 4294967296, word)?;
    word = print_key(rt, 4, 18446744073709551615, word)?;
    for k in 0..45 {
        word = print_key(rt, 5 + k as u64, drawn[k], word)?;
    }
    Ok(())
}

// From a digest, that of a tuple's numbers: bus, side, multiplicity, length, and its values, for which the slice has
// room.
fn tuple_digest(before: u64, tuple: FlatTuple, values: &[u64]) -> u64 {
    let length = tuple.length as usize;
    if length > values.len() {
        return before;
    }
    let head = digest(
        before,
        &[tuple.bus, tuple.side, tuple.multiplicity, tuple.length],
    );
    digest(head, &values[0..length])
}

// The digest of the 84 tuples of a core row.
fn core_tuples(row: &[u64]) -> u64 {
    let mut sum: u64 = 0;
    for i in 0..84 {
        let mut out = [0u64; 203];
        let tuple = keccak_tables_keccak_bus_interaction(ROUNDS, row, i, SYSCALL, &mut out);
        sum = tuple_digest(sum, tuple, &out);
    }
    sum
}

// The digest of the 1,031 tuples of a round row.
fn round_tuples(row: &[u64]) -> u64 {
    let mut sum: u64 = 0;
    for i in 0..1031 {
        let mut out = [0u64; 203];
        let tuple = keccak_tables_keccak_rnd_bus_interaction(row, i, &mut out);
        sum = tuple_digest(sum, tuple, &out);
    }
    sum
}

// The values of a core row, and the digest of its tuples.
fn print_core_row(rt: &impl Print, number: u64, row: &[u64]) -> io::Result<()> {
    let mut values = [0u64; 52];
    keccak_tables_keccak_values(row, &mut values);
    print_line(rt, 12, number, &values)?;
    print_line(rt, 18, number, &[core_tuples(row)])
}

// The same of a round row.
fn print_round_row(rt: &impl Print, number: u64, row: &[u64]) -> io::Result<()> {
    let mut values = [0u64; 141];
    keccak_tables_keccak_rnd_values(row, &mut values);
    print_line(rt, 15, number, &values)?;
    print_line(rt, 19, number, &[round_tuples(row)])
}

// The core table of five operations, and three rows of drawn words.
fn core_evaluations(rt: &impl Print, ops: &[u64]) -> io::Result<()> {
    let mut rows = [0u64; 5346];
    let _ = keccak_trace::generate_keccak_trace(FLOOR, ops, &mut rows);
    put_drawn(&mut rows, 3888, 1458, 3);
    for k in 0..11 {
        print_core_row(rt, k as u64, &rows[486 * k..486 * k + 486])?;
    }
    Ok(())
}

// The round table of an operation of its own, and two rows of drawn words.
fn round_evaluations(rt: &impl Print) -> io::Result<()> {
    let mut ops = [0u64; OP_WORDS];
    put_operation(&mut ops, 0, 4);
    let mut rows = [0u64; 50320];
    let _ = keccak_rnd_trace::generate_keccak_rnd_trace(ROUNDS, FLOOR, &ops, &mut rows);
    put_drawn(&mut rows, 47360, 2960, 5);
    for k in 0..34 {
        print_round_row(rt, k as u64, &rows[1480 * k..1480 * k + 1480])?;
    }
    Ok(())
}

fn evaluations(rt: &impl Print) -> io::Result<()> {
    let mut ops = [0u64; 5 * OP_WORDS];
    put_operations(&mut ops);
    core_evaluations(rt, &ops)?;
    round_evaluations(rt)
}

fn main(rt: HostRuntime) -> io::Result<()> {
    operations(&rt)?;
    let word = bitwise_lookups(&rt, 1)?;
    constant_lookups(&rt)?;
    key_lookups(&rt, word)?;
    evaluations(&rt)
}
