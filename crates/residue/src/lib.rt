// A tuple's residue: 0 exactly where the tuple needs no match or has one. Of one tuple by its values, with no branch but
// that on the multiplicity; and of a lane of eight.
#![tactic(auto)]

ghost use Rattle.std.specs.Prelude.{◌≡◌, [], ◌∷◌, ◌+◌, ◌≤◌, length};
ghost use Rattle.std.proofs.lemmas.List.Edits.{sets};
ghost use Rattle.lists.specs.Tab.{tab};
ghost use Rattle.tuple.specs.Tuple.{sender, ALU-AND, ALU-XOR};
ghost use Rattle.tuple.specs.declared.Bus.TheVariants.{ByteAlu, AreBytes, IsHalfword, IsWh};
ghost use Rattle.byte_tuples.specs.Lanes.{op_number, alu_lane, bytes_lane};
ghost use Rattle.residue.specs.Residue.{residue, residues};

use byte_tuples::Op;
use lists::put_words;

// c is the XOR of two bytes.
fn xor_residue(multiplicity: u64, a: u64, b: u64, c: u64) -> u64
    ensures { result ≡ residue (sender ByteAlu multiplicity (ALU-XOR ∷ a ∷ b ∷ c ∷ [])) }
{
    if multiplicity == 0 {
        return 0;
    }
    ((a | b) >> 8) | (a ^ b ^ c)
}

// c is the AND of two bytes.
pub fn and_residue(multiplicity: u64, a: u64, b: u64, c: u64) -> u64
    ensures { result ≡ residue (sender ByteAlu multiplicity (ALU-AND ∷ a ∷ b ∷ c ∷ [])) }
{
    if multiplicity == 0 {
        return 0;
    }
    ((a | b) >> 8) | ((a & b) ^ c)
}

// c is op of two bytes.
fn alu_residue(multiplicity: u64, op: Op, a: u64, b: u64, c: u64) -> u64
    ensures { result ≡ residue (sender ByteAlu multiplicity (op_number op ∷ a ∷ b ∷ c ∷ [])) }
{
    match op {
        Op::And => and_residue(multiplicity, a, b, c),
        Op::Xor => xor_residue(multiplicity, a, b, c),
    }
}

// Two bytes.
pub fn bytes_residue(multiplicity: u64, a: u64, b: u64) -> u64
    ensures { result ≡ residue (sender AreBytes multiplicity (a ∷ b ∷ [])) }
{
    if multiplicity == 0 {
        return 0;
    }
    (a | b) >> 8
}

// A halfword.
pub fn half_residue(multiplicity: u64, h: u64) -> u64
    ensures { result ≡ residue (sender IsHalfword multiplicity (h ∷ [])) }
{
    if multiplicity == 0 {
        return 0;
    }
    h >> 16
}

// A word of 32 bits and a half of 16.
pub fn is_wh_residue(multiplicity: u64, w: u64, h: u64) -> u64
    ensures { result ≡ residue (sender IsWh multiplicity (w ∷ h ∷ [])) }
{
    if multiplicity == 0 {
        return 0;
    }
    (w >> 32) | (h >> 16)
}

// A lane of eight: op on the words of `a` and of `b`, in those of `row` from c. All are read before the first is stored, so
// that the compiler may take several at a time.
fn alu_lane(multiplicity: u64, op: Op, a: &[u64], b: &[u64], row: &[u64], c: usize) -> [u64; 8]
    requires { (8 ≤ length a.now) × (8 ≤ length b.now) × (c + 8 ≤ length row.now) }
    ensures { result ≡ tab 8 (residues (alu_lane multiplicity (op_number op) a.now b.now row.now c)) }
{
    let mut lane = [0u64; 8];
    for z in 0..8 {
        lane[z] = alu_residue(multiplicity, op, a[z], b[z], row[c + z]);
    }
    lane
}

// Its residues, into `out` from `at`.
pub fn put_alu_lane(
    multiplicity: u64,
    op: Op,
    a: &[u64],
    b: &[u64],
    row: &[u64],
    c: usize,
    out: &mut [u64],
    at: usize,
)
    requires { (8 ≤ length a.now) × (8 ≤ length b.now) × (c + 8 ≤ length row.now) × (at + 8 ≤ length out.old) }
    ensures { out.new ≡ sets out.old at (tab 8 (residues (alu_lane multiplicity (op_number op) a.now b.now row.now c))) }
{
    let lane = alu_lane(multiplicity, op, a, b, row, c);
    put_words(out, at, &lane, 8);
}

// A lane of eight pairs of bytes: the words from a and from b.
pub fn put_bytes_lane(row: &[u64], a: usize, b: usize, out: &mut [u64], at: usize)
    requires { (a + 8 ≤ length row.now) × (b + 8 ≤ length row.now) × (at + 8 ≤ length out.old) }
    ensures { out.new ≡ sets out.old at (tab 8 (residues (bytes_lane row.now a b))) }
{
    for z in 0..8 {
        out[at + z] = bytes_residue(1, row[a + z], row[b + z]);
    }
}
