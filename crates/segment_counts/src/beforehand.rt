// The look: what a charge would add, kind by kind, and the largest counters after it.
ghost use Rattle.std.specs.Prelude.{◌≡◌, ℕ, ◌+◌, ◌≤◌, ◌<◌, length};
ghost use Rattle.std.proofs.lemmas.List.Edits.{sets};
ghost use Rattle.lists.specs.Tab.{tab, word};
ghost use Rattle.field.specs.Elements.{ElementRow};
ghost use Rattle.answer.specs.Limits.{MAX-OPS};
ghost use Rattle.answer.specs.Refusal.{overwrite, answer_of};
ghost use Rattle.bitwise.specs.Columns.{NUM-COUNTERS};
ghost use Rattle.bitwise.specs.Charge.{charged_words};
ghost use Rattle.keccak.specs.Row.{LAST-ADDRESS};
ghost use Rattle.keccak.specs.Refusals.{op_count, address_at};
ghost use Rattle.segment_counts.specs.Segment.{list_charged, LOOK-WORDS, largest, look_words, look_refusal, look_copy_after, look_out_after};
ghost use Rattle.segment_counts.specs.Sums.{kind_sum};
ghost use Rattle.segment_counts.specs.Kinds.{larger, look_word};

use super::checks::{LOOK_WORDS, Room, check_counts, first_short};
use answer::Refusal;
use bitwise::{NUM_COUNTERS, NUM_LOOKUP_TYPES, NUM_ROWS};
use keccak::OP_WORDS;
use lists::put_words;

// The sums of n operations of nr rounds in tables of `floor` rows or more, kind by kind.
pub fn kind_sums(nr: usize, floor: usize, shipped: bool, n: usize) -> [u64; 10]
    requires { (nr ≤ 24) × (floor ≤ 65536) × (n ≤ MAX-OPS) }
    ensures { result ≡ tab 10 (kind_sum nr floor shipped n) }
{
    let sent = super::sent_rows(nr, floor, shipped, n) as u64;
    let ops = n as u64;
    let rounds = (n * nr) as u64;
    [
        0,
        0,
        0,
        4 * ops + 220 * sent,
        25 * ops,
        0,
        0,
        ops + 200 * rounds,
        0,
        608 * rounds,
    ]
}

// The larger of two.
fn larger_of(a: u64, b: u64) -> u64
    ensures { result ≡ larger a b }
{
    if a < b {
        return b;
    }
    a
}

// The ten largest so far, and a row's ten counters: the larger of each two.
fn raise(most: &mut [u64], counters: &[u64], at: usize)
    requires { (10 ≤ length most.old) × (at + 10 ≤ length counters.now) }
    ensures { most.new ≡ sets most.old 0 (tab 10 (λ k. larger (word most.old k) (word counters.now (at + k)))) }
{
    for k in 0..NUM_LOOKUP_TYPES {
        most[k] = larger_of(most[k], counters[at + k]);
    }
}

// The largest counter of each kind.
fn largest_counters(counters: &[u64]) -> [u64; 10]
    requires { NUM-COUNTERS ≤ length counters.now }
    ensures { result ≡ tab 10 (largest counters.now) }
{
    let mut most = [0u64; 10];
    for r in 0..NUM_ROWS {
        raise(&mut most, counters, r * NUM_LOOKUP_TYPES);
    }
    most
}

// Word j of the answer.
fn look_word(sums: [u64; 10], most: [u64; 10], j: usize) -> u64
    requires { j < LOOK-WORDS }
    ensures { result ≡ look_word sums most j }
{
    if j % 2 == 0 {
        return sums[j / 2];
    }
    most[j / 2]
}

// The twenty words: of each kind its sum and its largest counter.
fn put_look(sums: [u64; 10], most: [u64; 10], out: &mut [u64])
    requires { LOOK-WORDS ≤ length out.old }
    ensures { out.new ≡ sets out.old 0 (tab LOOK-WORDS (look_word sums most)) }
{
    for j in 0..LOOK_WORDS {
        out[j] = look_word(sums, most, j);
    }
}

// The copy, charged, and the answer, of a look that passed the checks.
pub fn fill_look(
    nr: usize,
    floor: usize,
    shipped: bool,
    ops: &[u64],
    counters: &[u64],
    copy: &mut [u64],
    out: &mut [u64],
)
    requires { (nr ≤ 24) × (floor ≤ 65536) × (op_count ops.now ≤ MAX-OPS) × ElementRow NUM-COUNTERS counters.now × ((i : ℕ) → i < op_count ops.now → address_at ops.now i ≤ LAST-ADDRESS) × (NUM-COUNTERS ≤ length copy.old) × (LOOK-WORDS ≤ length out.old) }
    ensures copied { copy.new ≡ overwrite (charged_words counters.now (list_charged nr floor shipped ops.now)) copy.old }
    ensures words { out.new ≡ overwrite (look_words counters.now (list_charged nr floor shipped ops.now)) out.old }
{
    put_words(copy, 0, counters, NUM_COUNTERS);
    super::charge_segment(nr, floor, shipped, ops, copy);
    let sums = kind_sums(nr, floor, shipped, ops.len() / OP_WORDS);
    let most = largest_counters(copy);
    put_look(sums, most, out);
}

// Charge a copy of the counters, and tell of each kind what was charged and the largest counter of the copy.
pub fn look(
    nr: u64,
    floor: u64,
    shipped: bool,
    ops: &[u64],
    counters: &[u64],
    copy: &mut [u64],
    out: &mut [u64],
) -> Result<(), Refusal>
    ensures answer { result ≡ answer_of (look_refusal nr floor ops.now counters.now (length copy.old) (length out.old)) }
    ensures copied { copy.new ≡ look_copy_after nr floor shipped ops.now counters.now copy.old (length out.old) }
    ensures words { out.new ≡ look_out_after nr floor shipped ops.now counters.now (length copy.old) out.old }
{
    let Room { room, needed } = first_short(counters.len(), copy.len(), out.len(), LOOK_WORDS);
    check_counts(nr, floor, ops, counters, room, needed)?;
    fill_look(
        nr as usize,
        floor as usize,
        shipped,
        ops,
        counters,
        copy,
        out,
    );
    Ok(())
}
