// Prints what `tally` says of files that are built here: a line with the file's name, then its lines. The file `stdout`
// has the same lines from elsewhere.
#![tactic(auto)]

ghost use Rattle.std.specs.Prelude.{◌+◌, ◌≤◌};

use answer::Refusal;
use op_file::{RECORD_BYTES, Reading, Segments, Whole};
use op_reader::step::none_begun;
use op_reader::{feed, start};
use op_sums::finish;
use std::io;
use tally_arguments::{no_arguments, read_argument};
use tally_text::put_tally;

// The highest address that is counted, the highest that is not refused, and the first that is.
const COUNTED: u64 = 18446744073709551416;

const LEFT_OUT: u64 = 18446744073709551423;

const HIGH: u64 = 18446744073709551424;

// Byte k of a number, lowest first.
fn byte_of(x: u64, k: u64) -> u8
    requires { k ≤ 7 }
{
    ((x >> (8 * k)) % 256) as u8
}

// Two records of these addresses; all other words are 0.
fn records(first: u64, second: u64) -> [u8; 836] {
    let mut file = [0u8; 836];
    file[0] = 0x4B;
    file[1] = 0x4F;
    file[418] = 0x4B;
    file[419] = 0x4F;
    for k in 0..8 {
        file[10 + k] = byte_of(first, k as u64);
        file[428 + k] = byte_of(second, k as u64);
    }
    file
}

// The same with the first `count` bytes of a number from `at` on, lowest first.
fn put_number(file: [u8; 844], at: usize, count: usize, x: u64) -> [u8; 844]
    requires { (at + count ≤ 844) × (count ≤ 8) }
{
    let mut other = file;
    for k in 0..count {
        other[at + k] = byte_of(x, k as u64);
    }
    other
}

// Two records of these addresses under 4B 50; all other words are 0.
fn numbered(first: u64, second: u64) -> [u8; 844] {
    let mut file = [0u8; 844];
    file[0] = 0x4B;
    file[1] = 0x50;
    file[422] = 0x4B;
    file[423] = 0x50;
    put_number(put_number(file, 10, 8, first), 432, 8, second)
}

// A record under 4B 4F, and one under 4B 50, which ends 4 bytes before the last.
fn mixed(first: u64, second: u64) -> [u8; 844] {
    let mut file = [0u8; 844];
    file[0] = 0x4B;
    file[1] = 0x4F;
    file[418] = 0x4B;
    file[419] = 0x50;
    put_number(put_number(file, 10, 8, first), 428, 8, second)
}

// The same with a segment number.
fn put_segment(file: [u8; 844], at: usize, segment: u64) -> [u8; 844]
    requires { at ≤ 840 }
{
    put_number(file, at, 4, segment)
}

// The same with another byte at a place.
fn altered(file: [u8; 844], at: usize, b: u8) -> [u8; 844]
    requires { at ≤ 843 }
{
    let mut other = file;
    other[at] = b;
    other
}

// The same with another byte at a place.
fn changed(file: [u8; 836], at: usize, b: u8) -> [u8; 836]
    requires { at ≤ 835 }
{
    let mut other = file;
    other[at] = b;
    other
}

// The lines of a reader at the end of its file, where both tables have `floor` rows or more, and those of an empty file are
// shipped or not.
fn print_call(
    rt: &impl Print,
    floor: u64,
    shipped: bool,
    c: Result<Reading, Refusal>,
) -> io::Result<()> {
    let mut space = [0u8; 512];
    let n = put_tally(finish(floor, shipped, c), &mut space);
    rt.write_all(&space[..n])
}

fn print_tally(rt: &impl Print, c: Result<Reading, Refusal>) -> io::Result<()> {
    print_call(rt, 4, false, c)
}

// A reader after so many good records under 4B 4F.
fn after_records(records: u64) -> Result<Reading, Refusal>
    requires { records ≤ 89478485 }
{
    let segments = Segments {
        shown: 0,
        least: 0,
        greatest: 0,
    };
    let whole = Whole {
        n: records,
        unaligned: 0,
        start: records * (RECORD_BYTES as u64),
        segments,
    };
    Ok(Reading {
        whole,
        begun: none_begun(),
    })
}

// The first n bytes of a file, read at once after all records but one that a file may have.
fn print_last(rt: &impl Print, name: &[u8], file: &[u8], n: usize) -> io::Result<()> {
    rt.write_all(name)?;
    if n <= file.len() {
        print_tally(rt, feed(after_records(89478484), &file[0..n]))?;
    }
    Ok(())
}

// The first n bytes of a file, read at once.
fn print_first(rt: &impl Print, name: &[u8], file: &[u8], n: usize) -> io::Result<()> {
    rt.write_all(name)?;
    if n <= file.len() {
        print_tally(rt, feed(start(), &file[0..n]))?;
    }
    Ok(())
}

// The same, where the tables are shipped.
fn print_shipped(rt: &impl Print, name: &[u8], file: &[u8], n: usize) -> io::Result<()> {
    rt.write_all(name)?;
    if n <= file.len() {
        print_call(rt, 4, true, feed(start(), &file[0..n]))?;
    }
    Ok(())
}

// The same, with a floor.
fn print_floor(
    rt: &impl Print,
    name: &[u8],
    floor: u64,
    shipped: bool,
    file: &[u8],
    n: usize,
) -> io::Result<()> {
    rt.write_all(name)?;
    if n <= file.len() {
        print_call(rt, floor, shipped, feed(start(), &file[0..n]))?;
    }
    Ok(())
}

// An empty file, with two arguments.
fn print_arguments(rt: &impl Print, name: &[u8], first: &[u8], second: &[u8]) -> io::Result<()> {
    rt.write_all(name)?;
    let call = read_argument(read_argument(no_arguments(), first), second);
    print_call(rt, call.floor, call.shipped, start())
}

// The same as `print_first`, byte by byte.
fn print_bytes(rt: &impl Print, name: &[u8], file: &[u8]) -> io::Result<()> {
    rt.write_all(name)?;
    let mut c = start();
    for k in 0..file.len() {
        c = feed(c, &file[k..k + 1]);
    }
    print_tally(rt, c)
}

// The same in two pieces.
fn print_pieces(rt: &impl Print, name: &[u8], file: &[u8], cut: usize) -> io::Result<()> {
    rt.write_all(name)?;
    if cut <= file.len() {
        print_tally(rt, feed(feed(start(), &file[0..cut]), &file[cut..]))?;
    }
    Ok(())
}

fn good_files(rt: &impl Print) -> io::Result<()> {
    let file = records(4096, 8192);
    print_first(rt, b"empty\n", &file, 0)?;
    print_first(rt, b"one record\n", &file, 418)?;
    print_first(rt, b"two records\n", &file, 836)?;
    print_bytes(rt, b"two records, byte by byte\n", &file)?;
    print_pieces(rt, b"two records, cut in an address\n", &file, 432)
}

fn shipped_files(rt: &impl Print) -> io::Result<()> {
    let file = records(4096, 8192);
    print_shipped(rt, b"empty, shipped\n", &file, 0)?;
    print_shipped(rt, b"one record, shipped\n", &file, 418)?;
    print_shipped(rt, b"one byte too few, shipped\n", &file, 417)
}

fn cut_files(rt: &impl Print) -> io::Result<()> {
    let file = records(4096, 8192);
    print_first(rt, b"one byte\n", &file, 1)?;
    print_first(rt, b"one byte too few\n", &file, 417)?;
    print_first(rt, b"one byte too many\n", &file, 419)
}

fn wrong_marks(rt: &impl Print) -> io::Result<()> {
    let second = changed(records(4096, 8192), 419, 0x4E);
    print_first(rt, b"wrong second byte in record 2\n", &second, 836)?;
    print_first(rt, b"wrong first byte\n", &changed(second, 0, 0x4A), 836)?;
    print_first(rt, b"wrong second byte\n", &changed(second, 1, 0x4B), 418)
}

fn high_addresses(rt: &impl Print) -> io::Result<()> {
    let file = records(COUNTED, HIGH);
    print_first(rt, b"highest address\n", &file, 418)?;
    print_first(rt, b"high address in record 2\n", &file, 836)?;
    print_bytes(rt, b"high address in record 2, byte by byte\n", &file)?;
    print_pieces(
        rt,
        b"high address in record 2, cut in the address\n",
        &file,
        429,
    )
}

fn two_faults(rt: &impl Print) -> io::Result<()> {
    let high = records(HIGH, 18446744073709551615);
    print_first(rt, b"two high addresses\n", &high, 836)?;
    print_first(rt, b"high address, then a cut record\n", &high, 500)?;
    let marked = changed(high, 1, 0x4E);
    print_first(rt, b"high address and wrong mark\n", &marked, 836)?;
    print_first(rt, b"high address, wrong mark and cut\n", &marked, 417)
}

// The last record that a file may have is the 89,478,485th.
fn last_records(rt: &impl Print) -> io::Result<()> {
    let file = records(4096, 8192);
    print_last(rt, b"last record\n", &file, 418)?;
    print_last(rt, b"a byte after the last record\n", &file, 419)?;
    let after = changed(file, 418, 0);
    print_last(
        rt,
        b"a record with a wrong mark after the last\n",
        &after,
        836,
    )?;
    print_last(
        rt,
        b"wrong mark in the last record, and more\n",
        &changed(after, 1, 0),
        836,
    )
}

// A record at an address that is no multiple of 8, alone and before another or a cut one.
fn unaligned_files(rt: &impl Print) -> io::Result<()> {
    let file = records(4097, 8192);
    print_first(rt, b"one unaligned record\n", &file, 418)?;
    print_shipped(rt, b"one unaligned record, shipped\n", &file, 418)?;
    print_first(rt, b"an unaligned record and another\n", &file, 836)?;
    print_bytes(rt, b"the same, byte by byte\n", &file)?;
    print_first(rt, b"an unaligned record, then a byte\n", &file, 419)
}

// Two of them, and one that is too high besides.
fn unaligned_twice(rt: &impl Print) -> io::Result<()> {
    print_first(
        rt,
        b"two unaligned records\n",
        &records(4100, LEFT_OUT),
        836,
    )?;
    let high = records(4097, HIGH + 1);
    print_first(rt, b"a high address and unaligned\n", &high, 836)
}

// The last record that a file may have is left out.
fn last_unaligned(rt: &impl Print) -> io::Result<()> {
    let file = records(4097, 8192);
    print_last(rt, b"last record, unaligned\n", &file, 418)?;
    print_last(rt, b"a byte after it\n", &file, 419)
}

fn faulty_files(rt: &impl Print) -> io::Result<()> {
    cut_files(rt)?;
    wrong_marks(rt)?;
    high_addresses(rt)?;
    two_faults(rt)
}

// Records under 4B 50: the segment numbers are told, also 0.
fn numbered_files(rt: &impl Print) -> io::Result<()> {
    let file = put_segment(numbered(4096, 8192), 418, 67305985);
    print_first(rt, b"one record of segment 67305985\n", &file, 422)?;
    print_first(
        rt,
        b"a record of segment 67305985, then one of 0\n",
        &file,
        844,
    )?;
    print_bytes(rt, b"the same, byte by byte\n", &file)?;
    let two = put_segment(file, 840, 4294967295);
    print_first(rt, b"segments 67305985 and 4294967295\n", &two, 844)?;
    print_pieces(rt, b"the same, cut in a segment number\n", &two, 420)
}

fn numbered_orders(rt: &impl Print) -> io::Result<()> {
    let file = put_segment(numbered(4096, 8192), 418, 9);
    let two = put_segment(file, 840, 3);
    print_first(rt, b"segments 9 and 3\n", &two, 844)?;
    let same = put_segment(two, 840, 9);
    print_first(rt, b"segment 9 twice\n", &same, 844)
}

// Both marks in one file: a record under 4B 4F is of segment 0.
fn mixed_files(rt: &impl Print) -> io::Result<()> {
    let file = put_segment(mixed(4096, 8192), 836, 9);
    print_first(rt, b"a record without a segment\n", &file, 418)?;
    print_first(
        rt,
        b"a record without a segment, then one of 9\n",
        &file,
        840,
    )?;
    print_pieces(rt, b"the same, then 4 bytes too many\n", &file, 419)?;
    print_last(rt, b"a last record, then one of segment 9\n", &file, 840)
}

// Records that are left out count in neither.
fn numbered_unaligned(rt: &impl Print) -> io::Result<()> {
    let first = put_segment(put_segment(numbered(4097, 8192), 418, 9), 840, 4);
    print_first(rt, b"segment 9 left out\n", &first, 422)?;
    print_first(rt, b"segment 9 left out, then segment 4\n", &first, 844)?;
    let second = put_segment(mixed(4096, 8193), 836, 9);
    print_first(rt, b"no segment, then segment 9 left out\n", &second, 840)
}

// Where a record starts is not told by its number alone.
fn numbered_cuts(rt: &impl Print) -> io::Result<()> {
    let file = numbered(4096, 8192);
    print_first(rt, b"a segment number that is cut\n", &file, 421)?;
    print_first(rt, b"no segment number\n", &file, 418)?;
    print_first(rt, b"a cut record after a segment number\n", &file, 423)?;
    print_first(rt, b"a cut segment number after another\n", &file, 843)?;
    print_first(
        rt,
        b"one cut after a record without\n",
        &mixed(4096, 8192),
        839,
    )
}

fn numbered_marks(rt: &impl Print) -> io::Result<()> {
    let file = numbered(4096, 8192);
    print_first(rt, b"mark 4B 51\n", &altered(file, 1, 0x51), 2)?;
    print_first(
        rt,
        b"mark 4B 51 in record 2\n",
        &altered(file, 423, 0x51),
        844,
    )?;
    print_first(rt, b"mark 50 4B\n", &altered(file, 0, 0x50), 844)
}

fn numbered_addresses(rt: &impl Print) -> io::Result<()> {
    let file = numbered(HIGH, 8192);
    print_first(rt, b"high address of a numbered record, cut\n", &file, 421)?;
    print_first(rt, b"high address of a numbered record\n", &file, 422)?;
    let next = numbered(COUNTED, HIGH + 1);
    print_bytes(rt, b"high address in numbered record 2\n", &next)
}

fn numbered_cases(rt: &impl Print) -> io::Result<()> {
    numbered_files(rt)?;
    numbered_orders(rt)?;
    mixed_files(rt)?;
    numbered_unaligned(rt)?;
    numbered_cuts(rt)?;
    numbered_marks(rt)?;
    numbered_addresses(rt)
}

fn floors(rt: &impl Print) -> io::Result<()> {
    let file = records(4096, 8192);
    print_floor(rt, b"empty, shipped, floor 8\n", 8, true, &file, 0)?;
    print_floor(rt, b"empty, floor 65536\n", 65536, false, &file, 0)?;
    print_floor(rt, b"one record, floor 32\n", 32, false, &file, 418)?;
    print_floor(rt, b"one record, floor 64\n", 64, false, &file, 418)?;
    print_floor(rt, b"one byte too few, floor 64\n", 64, true, &file, 417)
}

// A file that is wrong besides: the floor is told.
fn wrong_floors(rt: &impl Print) -> io::Result<()> {
    let file = records(HIGH, 8192);
    print_floor(rt, b"floor 0\n", 0, false, &file, 836)?;
    print_floor(rt, b"floor 2\n", 2, true, &file, 418)?;
    print_floor(rt, b"floor 6\n", 6, false, &file, 417)?;
    print_floor(rt, b"floor 131072\n", 131072, true, &file, 0)
}

fn arguments(rt: &impl Print) -> io::Result<()> {
    print_arguments(rt, b"arguments shipped, 0008\n", b"shipped", b"0008")?;
    print_arguments(rt, b"arguments 16, shipped\n", b"16", b"shipped")?;
    print_arguments(rt, b"arguments shipped twice\n", b"shipped", b"shipped")?;
    print_arguments(rt, b"arguments x, 8\n", b"x", b"8")?;
    print_arguments(rt, b"arguments 8, x\n", b"8", b"x")?;
    print_arguments(rt, b"arguments 8, the empty word\n", b"8", b"")
}

fn long_arguments(rt: &impl Print) -> io::Result<()> {
    print_arguments(
        rt,
        b"arguments 8, 2^64 - 1\n",
        b"8",
        b"18446744073709551615",
    )?;
    print_arguments(rt, b"arguments 8, 2^64\n", b"8", b"18446744073709551616")?;
    print_arguments(
        rt,
        b"arguments 8, 2^64 + 8\n",
        b"8",
        b"18446744073709551624",
    )?;
    print_arguments(rt, b"arguments 8, 8x\n", b"8", b"8x")?;
    print_arguments(rt, b"arguments 8, shippedx\n", b"8", b"shippedx")
}

fn main(rt: HostRuntime) -> io::Result<()> {
    good_files(&rt)?;
    shipped_files(&rt)?;
    faulty_files(&rt)?;
    last_records(&rt)?;
    unaligned_files(&rt)?;
    unaligned_twice(&rt)?;
    last_unaligned(&rt)?;
    floors(&rt)?;
    wrong_floors(&rt)?;
    arguments(&rt)?;
    long_arguments(&rt)?;
    numbered_cases(&rt)
}
