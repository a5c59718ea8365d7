// Reads an operation file on standard input and writes the sums of its lookups, or the first fault. With the argument
// `shipped` the tables of an empty file are shipped; a decimal is the floor of both tables' heights.
#![tactic(auto)]

ghost use Rattle.std.specs.Prelude.{ℕ, ◌<◌, ◌≤◌, true, false, ◌≡◌, List, length, take, None, is_err};
ghost use Rattle.std.proofs.lemmas.List.Edits.{sets};
ghost use Rattle.answer.specs.Refusal.{is_floor};
ghost use Rattle.op_file.specs.Reader.{feed_of, file_start, finish_of};
ghost use Rattle.tally_text.specs.Output.{text_of};
ghost use Rattle.tally_arguments.specs.Arguments.{arguments_of};

use answer::{Refusal, check_floor};
use op_file::Reading;
use std::env::FillError;
use std::fmt::Display;
use std::io;
use std::io::Read;
use std::rt::Env;
use tally_arguments::{Call, no_arguments, read_argument};
use tally_text::put_tally;

// More bytes than an argument has: where a page has 4,096 bytes, Linux takes at most 131,071.
fn argument_space() -> [u8; 131072]
    ensures { 131072 ≡ length result }
{
    [0; 131072]
}

// What the arguments say, and whether one could not be read.
#[derive(Clone, Copy)]
struct Arguments {
    call: Call,
    failed: bool,
}

// The arguments one by one; the first is the program's own name. One that is longer than the lent bytes, of which they hold
// the first alone, is not taken for a word: nothing is read after it. The contract says that there are words which say this,
// not that they are those of the command: no contract speaks of those.
fn read_arguments(rt: &impl Env) -> Arguments
    ensures { (words : List (List ℕ)) × (result.call ≡ arguments_of words) }
{
    let mut space = argument_space();
    let word: &mut [u8] = &mut space;
    let mut call = no_arguments();
    for i in 1..usize::MAX {
        match rt.arg(i, word) {
            Ok(n) => call = read_argument(call, &word[..n]),
            Err(FillError::NotPresent) => break,
            Err(FillError::TooLong) => return Arguments { call, failed: true },
        }
    }
    Arguments {
        call,
        failed: false,
    }
}

// Where the reader stands after a read, how many bytes came, and why the read failed, if it did.
#[derive(Clone, Copy)]
struct Turn {
    cursor: Result<Reading, Refusal>,
    got: usize,
    failed: Option<io::Error>,
}

// Reads once, and feeds what came. What came is what the buffer then holds: no contract says what a file holds.
fn read_some(input: &mut impl Read, c: Result<Reading, Refusal>, buf: &mut [u8]) -> Turn
    ensures { (result.cursor ≡ feed_of c (take result.got buf.new)) × (result.got ≤ length buf.new) }
{
    let (got, failed) = match input.read(buf) {
        Ok(n) => (n, None),
        Err(error) => (0, Some(error)),
    };
    Turn {
        cursor: op_reader::feed(c, &buf[..got]),
        got,
        failed,
    }
}

// Reads until nothing comes, or a fault, which comes at the latest past the most bytes that a file may have. The contract
// says that there are bytes which take the reader where it stands, not that they are those that came: that is in what each
// read feeds.
fn read_all(input: &mut impl Read) -> Turn
    ensures { (file : List ℕ) × (result.cursor ≡ feed_of file_start file) × (0 < result.got → is_err result.cursor ≡ true) }
{
    let mut space = [0u8; 65536];
    let buf: &mut [u8] = &mut space;
    let mut c = op_reader::start();
    loop {
        let t = read_some(input, c, buf);
        c = t.cursor;
        if t.got == 0 {
            return t;
        }
        if c.is_err() {
            return t;
        }
    }
}

// Reads the file, but nothing of it where the floor is refused: whatever the file holds, that is told.
fn read_file(input: &mut impl Read, floor: u64) -> Turn
    ensures fed { (file : List ℕ) × (result.cursor ≡ feed_of file_start file) × (0 < result.got → is_err result.cursor ≡ true) }
    ensures floor_refused { is_floor floor ≡ false → (result.cursor ≡ file_start) × (result.failed ≡ None) }
{
    if check_floor(floor).is_err() {
        return Turn {
            cursor: op_reader::start(),
            got: 0,
            failed: None,
        };
    }
    read_all(input)
}

// Writes the lines of a reader at the end of its file, which it first puts in the lent bytes: there they stand also where
// the write fails. What reaches the file no contract says.
fn write_tally(
    rt: &impl Print,
    floor: u64,
    shipped: bool,
    c: Result<Reading, Refusal>,
    out: &mut [u8],
) -> io::Result<()>
    requires { 512 ≤ length out.old }
    ensures { out.new ≡ sets out.old 0 (text_of (finish_of floor shipped c)) }
{
    let n = put_tally(op_sums::finish(floor, shipped, c), out);
    rt.write_all(&out[..n])
}

// Writes a line to standard error: what failed and why. Where that fails too, nobody is left to be told.
fn fail(rt: &impl Eprint, what: &str, why: impl Display + Drop) {
    let _ = eprintln!(rt; "{what}: {why}");
}

// Without an `ensures`: of arguments and files no contract speaks. An argument that could not be read is told on standard
// error before anything is read, a failed read likewise, and no line is written; a failed write is told there too.
fn main(rt: HostRuntime) {
    let mut space = [0u8; 512];
    let arguments = read_arguments(&rt);
    if arguments.failed {
        fail(&rt, "argument", "File name too long");
        return;
    }
    let call = arguments.call;
    let t = read_file(&mut rt.stdin(), call.floor);
    if let Some(error) = t.failed {
        fail(&rt, "standard input", error);
        return;
    }
    if let Err(error) = write_tally(&rt, call.floor, call.shipped, t.cursor, &mut space) {
        fail(&rt, "standard output", error);
    }
}
