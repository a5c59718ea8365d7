// The operation file read in pieces: where a reader stands after each.
#![tactic(auto)]

ghost use Rattle.std.specs.Prelude.{◌≡◌, ◌<◌, ◌≤◌, length, Ok};
ghost use Rattle.op_file.specs.Reader.{Advanced, feed_of, file_start};

use answer::{MAX_OPS, Refusal};
use keccak::LAST_SEGMENT;
use op_file::{Begun, RECORD_BYTES, Reading, SEGMENT_MARK, Segments, Whole};
pub use step::records_read;
use step::{byte, none_begun, read_record, record_size};

pub mod step;

pub fn start() -> Result<Reading, Refusal>
    ensures { result ≡ file_start }
{
    let segments = Segments {
        shown: 0,
        least: LAST_SEGMENT,
        greatest: 0,
    };
    let whole = Whole {
        n: 0,
        unaligned: 0,
        start: 0,
        segments,
    };
    Ok(Reading {
        whole,
        begun: none_begun(),
    })
}

fn least(a: usize, b: usize) -> usize
    ensures { (result ≤ a) × (result ≤ b) × (0 < a → 0 < b → 0 < result) }
{
    if a < b { a } else { b }
}

// A part of a piece that is read at once.
#[derive(Clone, Copy)]
struct Part {
    cursor: Result<Reading, Refusal>,
    used: usize,
}

// Reads on in a piece that is not empty: a whole record at once, or what follows the address of a record that the
// piece's end splits, or else one byte.
fn advance(c: Reading, s: &[u8]) -> Part
    requires { 0 < length s.now }
    ensures { Advanced (Ok c) s.now result.cursor result.used }
{
    let w = c.whole;
    let p = c.begun;
    if records_read(w) < MAX_OPS {
        let at = p.at;
        if at == 0 {
            if s.len() >= RECORD_BYTES {
                let marked = s[1] == SEGMENT_MARK;
                let size = record_size(marked);
                if s.len() >= size {
                    return Part {
                        cursor: read_record(w, marked, &s[..size]),
                        used: size,
                    };
                }
            }
        } else if at >= 18 {
            if at < RECORD_BYTES - 1 {
                let k = least(RECORD_BYTES - 1 - at, s.len());
                let q = Begun {
                    at: at + k,
                    mark: p.mark,
                    addr: p.addr,
                    tail: p.tail,
                };
                return Part {
                    cursor: Ok(Reading { whole: w, begun: q }),
                    used: k,
                };
            }
        }
    }
    Part {
        cursor: byte(c, s[0]),
        used: 1,
    }
}

// A reader after a piece of the file.
pub fn feed(c: Result<Reading, Refusal>, chunk: &[u8]) -> Result<Reading, Refusal>
    ensures { result ≡ feed_of c chunk.now }
{
    let mut now = c;
    let mut i: usize = 0;
    // No `for`: a turn reads as many bytes as `advance` says.
    while i < chunk.len() {
        let a = advance(now?, &chunk[i..]);
        now = a.cursor;
        i += a.used;
    }
    now
}
