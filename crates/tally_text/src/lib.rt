// The lines that `tally` writes.
#![tactic(auto)]

ghost use Rattle.std.specs.Prelude.{◌+◌, ◌≤◌, length, Ok, Err};
ghost use Rattle.text.specs.Text.{Puts};
ghost use Rattle.tally_text.specs.Output.{height_lines, lookup_lines, other_lines, pair_line, segments_line, unaligned_line, text_of};

use answer::Refusal;
use op_file::{Segments, Sums};
use text::{put, put_decimal, put_line};

// The record count and the two heights.
fn put_heights(s: Sums, out: &mut [u8]) -> usize
    requires { 512 ≤ length out.old }
    ensures { Puts out.old 0 (height_lines s) out.new result × (result ≤ 88) }
{
    let e0 = put_line(out, 0, b"ops ", s.ops);
    let e1 = put_line(out, e0, b"core-rows ", s.core_rows);
    put_line(out, e1, b"round-rows ", s.round_rows)
}

// The sums of the buses that bitwise and constant rows answer.
fn put_lookups(s: Sums, out: &mut [u8], at: usize) -> usize
    requires { at + 121 ≤ length out.old }
    ensures { Puts out.old at (lookup_lines s) out.new result × (result ≤ at + 121) }
{
    let e0 = put_line(out, at, b"ByteAlu ", s.byte_alu);
    let e1 = put_line(out, e0, b"AreBytes ", s.are_bytes);
    let e2 = put_line(out, e1, b"KeccakRc ", s.keccak_rc);
    put_line(out, e2, b"IsHalfword ", s.is_halfword)
}

// The others.
fn put_others(s: Sums, out: &mut [u8], at: usize) -> usize
    requires { at + 79 ≤ length out.old }
    ensures { Puts out.old at (other_lines s) out.new result × (result ≤ at + 79) }
{
    let e0 = put_line(out, at, b"IsWh ", s.is_wh);
    let e1 = put_line(out, e0, b"Memw ", s.memw);
    put_line(out, e1, b"Ecall ", s.ecall)
}

// A name and two numbers on a line.
fn put_pair(out: &mut [u8], at: usize, name: &[u8], a: u64, b: u64) -> usize
    requires { at + length name.now + 42 ≤ length out.old }
    ensures { Puts out.old at (pair_line name.now a b) out.new result × (result ≤ at + length name.now + 42) }
{
    let e0 = put(out, at, name);
    let e1 = put_decimal(out, e0, a);
    put_line(out, e1, b" ", b)
}

// The line of the segment numbers, where a counted record is marked 4B 50.
fn put_segments(s: Segments, out: &mut [u8], at: usize) -> usize
    requires { at + 51 ≤ length out.old }
    ensures { Puts out.old at (segments_line s) out.new result × (result ≤ at + 51) }
{
    if s.shown == 0 {
        return at;
    }
    put_pair(out, at, b"segments ", s.least, s.greatest)
}

// The last line, where records were left out.
fn put_unaligned(left: u64, out: &mut [u8], at: usize) -> usize
    requires { at + 31 ≤ length out.old }
    ensures { Puts out.old at (unaligned_line left) out.new result × (result ≤ at + 31) }
{
    if left == 0 {
        return at;
    }
    put_line(out, at, b"unaligned ", left)
}

// The ten lines, and the last two.
fn put_sums(s: Sums, out: &mut [u8]) -> usize
    requires { 512 ≤ length out.old }
    ensures { Puts out.old 0 (text_of (Ok s)) out.new result × (result ≤ 512) }
{
    let a = put_heights(s, out);
    let b = put_lookups(s, out, a);
    let c = put_others(s, out, b);
    let segments = s.segments;
    let d = put_segments(segments, out, c);
    put_unaligned(s.unaligned, out, d)
}

// The one line of a faulty file.
fn put_refused(refusal: Refusal, out: &mut [u8]) -> usize
    requires { 512 ≤ length out.old }
    ensures { Puts out.old 0 (text_of (Err refusal)) out.new result × (result ≤ 512) }
{
    let number = refusal.number();
    let detail = refusal.detail();
    put_pair(out, 0, b"refused ", number, detail)
}

// What `tally` writes; answers how many bytes.
pub fn put_tally(tally: Result<Sums, Refusal>, out: &mut [u8]) -> usize
    requires { 512 ≤ length out.old }
    ensures { Puts out.old 0 (text_of tally) out.new result × (result ≤ 512) }
{
    match tally {
        Ok(s) => put_sums(s, out),
        Err(refusal) => put_refused(refusal, out),
    }
}
