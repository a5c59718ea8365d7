// What one byte, or a whole record at once, makes of a reader of the operation file.
ghost use Rattle.std.specs.Prelude.{◌≡◌, ◌+◌, ◌*◌, ◌<◌, ◌≤◌, min, max, ltb, leb, eqb, length, Ok, Err};
ghost use Rattle.lists.specs.Tab.{pick, word};
ghost use Rattle.bits.specs.Bits.{pack};
ghost use Rattle.answer.specs.Limits.{MAX-OPS};
ghost use Rattle.answer.specs.declared.Refusal.TheVariants.{HighAddress};
ghost use Rattle.keccak.specs.Row.{LAST-ADDRESS};
ghost use Rattle.op_file.specs.File.{RECORD-BYTES, SEGMENT-RECORD-BYTES, is_mark, is_marked, record_size, segment_of, address_of, fault_of};
ghost use Rattle.op_file.specs.Reader.{after, wrong, in_address, shifted, segment_by, taken, none_begun, counted, record_read, record_count, reading, step_of};

use answer::{MAX_OPS, Refusal};
use keccak::LAST_ADDRESS;
use op_file::{
    Begun, FIRST_MARK, MAX_FILE_BYTES, PLAIN_MARK, RECORD_BYTES, Reading, SEGMENT_MARK,
    SEGMENT_RECORD_BYTES, Segments, Whole,
};

fn wide(b: u8) -> u64
    ensures { result ≡ b }
{
    b as u64
}

// One more byte of a number, lowest first: it comes in from the top.
fn shift_in(a: u64, b: u8) -> u64
    ensures { result ≡ shifted a b }
{
    a / 256 + wide(b) * 72057594037927936
}

// The number that the 8 bytes from k make, lowest first.
pub fn word_at(s: &[u8], k: usize) -> u64
    requires { k + 8 ≤ length s.now }
    ensures { result ≡ pack 8 k (word s.now) }
{
    let mut a: u64 = 0;
    for j in 0..8 {
        a = shift_in(a, s[k + j]);
    }
    a
}

// How long a record is, by its mark.
pub fn record_size(marked: bool) -> usize
    ensures { result ≡ record_size marked }
{
    if marked {
        SEGMENT_RECORD_BYTES
    } else {
        RECORD_BYTES
    }
}

// The segment number of the record that starts at byte `from`.
pub fn segment_at(s: &[u8], from: usize, marked: bool) -> u64
    requires { from + record_size marked ≤ length s.now }
    ensures { result ≡ pick marked (pack 4 (from + RECORD-BYTES) (word s.now)) 0 }
{
    if marked {
        // The upper half of the last eight bytes.
        return word_at(s, from + (SEGMENT_RECORD_BYTES - 8)) / 4294967296;
    }
    0
}

// How many records are read, where they are no more than a file may have; else any number above that. A sum of two words
// may be none, and a caller can make a reader up, also one that stands past the most bytes of a file.
pub fn records_read(w: Whole) -> u64
    ensures { (result ≤ record_count w) × (result ≤ MAX-OPS → result ≡ record_count w) }
{
    if w.start > MAX_FILE_BYTES {
        return MAX_OPS + 1;
    }
    if w.n > MAX_OPS {
        return w.n;
    }
    if w.unaligned > MAX_OPS {
        return w.unaligned;
    }
    w.n + w.unaligned
}

fn lesser(a: u64, b: u64) -> u64
    ensures { result ≡ min a b }
{
    if a < b { a } else { b }
}

fn greater(a: u64, b: u64) -> u64
    ensures { result ≡ max a b }
{
    if a < b { b } else { a }
}

// The segment numbers of counted records, with one more of them.
fn count_segment(s: Segments, marked: bool, segment: u64) -> Segments
    ensures { result ≡ counted s marked segment }
{
    let least = lesser(s.least, segment);
    let greatest = greater(s.greatest, segment);
    if marked {
        return Segments {
            shown: 1,
            least,
            greatest,
        };
    }
    Segments {
        shown: s.shown,
        least,
        greatest,
    }
}

// The records that are read, with one more without a fault at this address: it is counted, or left out.
fn count_record(w: Whole, addr: u64, marked: bool, segment: u64) -> Whole
    requires { record_count w < MAX-OPS }
    ensures { result ≡ record_read w addr marked segment }
{
    let start = w.start + record_size(marked) as u64;
    let s = w.segments;
    if addr % 8 == 0 {
        return Whole {
            n: w.n + 1,
            unaligned: w.unaligned,
            start,
            segments: count_segment(s, marked, segment),
        };
    }
    Whole {
        n: w.n,
        unaligned: w.unaligned + 1,
        start,
        segments: s,
    }
}

// Nothing of a record.
pub fn none_begun() -> Begun
    ensures { result ≡ none_begun }
{
    Begun {
        at: 0,
        mark: 0,
        addr: 0,
        tail: 0,
    }
}

// A reader after the last byte of a record with this address, mark and segment number.
fn end_record(w: Whole, addr: u64, marked: bool, segment: u64) -> Result<Reading, Refusal>
    requires { record_count w < MAX-OPS }
    ensures { result ≡ pick (ltb LAST-ADDRESS addr) (Err (HighAddress addr)) (Ok (reading (record_read w addr marked segment) none_begun)) }
{
    if addr > LAST_ADDRESS {
        return Err(Refusal::HighAddress(addr));
    }
    Ok(Reading {
        whole: count_record(w, addr, marked, segment),
        begun: none_begun(),
    })
}

fn is_mark(b: u8) -> bool
    ensures { result ≡ is_mark b }
{
    if b == PLAIN_MARK {
        return true;
    }
    b == SEGMENT_MARK
}

// A reader after the whole record r, whose second byte tells whether it is marked.
pub fn read_record(w: Whole, marked: bool, r: &[u8]) -> Result<Reading, Refusal>
    requires { (record_count w < MAX-OPS) × (length r.now ≡ record_size marked) × (is_marked r.now ≡ marked) }
    ensures { result ≡ after (fault_of (record_count w) w.start r.now) (Ok (reading (record_read w (address_of r.now) (is_marked r.now) (segment_of r.now)) none_begun)) }
{
    if r[0] != FIRST_MARK {
        return Err(Refusal::BadRecord(w.start));
    }
    if !is_mark(r[1]) {
        return Err(Refusal::BadRecord(w.start));
    }
    let addr = word_at(r, 10);
    let segment = segment_at(r, 0, marked);
    end_record(w, addr, marked, segment)
}

// Byte `at` of a record contradicts both marks.
fn is_wrong(at: usize, b: u8) -> bool
    ensures { result ≡ wrong at b }
{
    if at == 0 {
        return b != FIRST_MARK;
    }
    if at == 1 {
        return !is_mark(b);
    }
    false
}

// The address so far, with byte `at` of the record.
fn shift(at: usize, addr: u64, b: u8) -> u64
    ensures { result ≡ pick (in_address at) (shifted addr b) addr }
{
    if at < 10 {
        return addr;
    }
    if at >= 18 {
        return addr;
    }
    shift_in(addr, b)
}

// The segment number so far, likewise.
fn shift_tail(at: usize, tail: u64, b: u8) -> u64
    ensures { result ≡ pick (leb RECORD-BYTES at) (shifted tail b) tail }
{
    if at < RECORD_BYTES {
        return tail;
    }
    shift_in(tail, b)
}

// The second byte of the mark, where byte `at` is that byte or comes after it.
fn mark_at(at: usize, mark: u64, b: u8) -> u64
    ensures { result ≡ pick (eqb at 1) b mark }
{
    if at == 1 {
        return wide(b);
    }
    mark
}

// A record with one more byte, where it has more of them.
fn take_byte(p: Begun, b: u8) -> Begun
    requires { p.at < SEGMENT-RECORD-BYTES }
    ensures { result ≡ taken p b }
{
    let mark = mark_at(p.at, p.mark, b);
    let addr = shift(p.at, p.addr, b);
    let tail = shift_tail(p.at, p.tail, b);
    Begun {
        at: p.at + 1,
        mark,
        addr,
        tail,
    }
}

// The segment number with the last byte of a record.
fn last_segment(marked: bool, tail: u64, b: u8) -> u64
    ensures { result ≡ segment_by marked (shifted tail b) }
{
    if marked {
        return shift_in(tail, b) / 4294967296;
    }
    0
}

// A reader after one byte.
pub fn byte(c: Reading, b: u8) -> Result<Reading, Refusal>
    ensures { result ≡ step_of (Ok c) b }
{
    let w = c.whole;
    let p = c.begun;
    if records_read(w) >= MAX_OPS {
        return Err(Refusal::PastEnd(MAX_OPS + 1));
    }
    if is_wrong(p.at, b) {
        return Err(Refusal::BadRecord(w.start));
    }
    let marked = p.mark == SEGMENT_MARK as u64;
    if p.at < record_size(marked) - 1 {
        return Ok(Reading {
            whole: w,
            begun: take_byte(p, b),
        });
    }
    let segment = last_segment(marked, p.tail, b);
    end_record(w, p.addr, marked, segment)
}
