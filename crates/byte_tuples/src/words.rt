// A tuple as words: the four before its values, then these.
ghost use Rattle.std.specs.Prelude.{◌≡◌, [], ◌∷◌, ◌+◌, ◌≤◌, length};
ghost use Rattle.std.proofs.lemmas.List.Edits.{sets};
ghost use Rattle.tuple.specs.Tuple.{sender};
ghost use Rattle.tuple.specs.Words.{tuple_words, tuples_words};
ghost use Rattle.tuple.specs.declared.Bus.TheVariants.{ByteAlu, AreBytes};
ghost use Rattle.byte_tuples.specs.Lanes.{op_number, alu_lane, bytes_lane};

use super::{Op, op_number};
use tuple::header::put_header;
use tuple::{Bus, BusInteraction, Side};

// op(a, b) = c, from `at`.
fn put_alu(out: &mut [u64], at: usize, multiplicity: u64, op: u64, a: u64, b: u64, c: u64)
    requires { at + 8 ≤ length out.old }
    ensures { out.new ≡ sets out.old at (tuple_words (sender ByteAlu multiplicity (op ∷ a ∷ b ∷ c ∷ []))) }
{
    let tuple = BusInteraction {
        bus: Bus::ByteAlu,
        side: Side::Sender,
        length: 4,
        multiplicity,
    };
    put_header(out, at, tuple);
    let from = at + 4;
    out[from] = op;
    out[from + 1] = a;
    out[from + 2] = b;
    out[from + 3] = c;
}

// a and b are bytes, from `at`.
pub fn put_bytes(out: &mut [u64], at: usize, a: u64, b: u64)
    requires { at + 6 ≤ length out.old }
    ensures { out.new ≡ sets out.old at (tuple_words (sender AreBytes 1 (a ∷ b ∷ []))) }
{
    let tuple = BusInteraction {
        bus: Bus::AreBytes,
        side: Side::Sender,
        length: 2,
        multiplicity: 1,
    };
    put_header(out, at, tuple);
    let from = at + 4;
    out[from] = a;
    out[from + 1] = b;
}

// A lane of eight: op on the words of `a` and of `b`, in those of `row` from c.
pub fn put_alu_lane(
    multiplicity: u64,
    op: Op,
    a: &[u64],
    b: &[u64],
    row: &[u64],
    c: usize,
    out: &mut [u64],
    at: usize,
)
    requires { (8 ≤ length a.now) × (8 ≤ length b.now) × (c + 8 ≤ length row.now) × (at + 64 ≤ length out.old) }
    ensures { out.new ≡ sets out.old at (tuples_words (alu_lane multiplicity (op_number op) a.now b.now row.now c) 8) }
{
    let number = op_number(op);
    for z in 0..8 {
        put_alu(
            out,
            at + 8 * z,
            multiplicity,
            number,
            a[z],
            b[z],
            row[c + z],
        );
    }
}

// A lane of eight pairs of bytes: the words from a and from b.
pub fn put_bytes_lane(row: &[u64], a: usize, b: usize, out: &mut [u64], at: usize)
    requires { (a + 8 ≤ length row.now) × (b + 8 ≤ length row.now) × (at + 48 ≤ length out.old) }
    ensures { out.new ≡ sets out.old at (tuples_words (bytes_lane row.now a b) 8) }
{
    for z in 0..8 {
        put_bytes(out, at + 6 * z, row[a + z], row[b + z]);
    }
}
