// tables/keccak.rs, bus_interactions: the tuples of a core row that carry the state: here those on the Keccak bus, which
// are timestamp, round and the 200 words of a state, x outermost; in `memw` those of the memory.
#![tactic(auto)]

ghost use Rattle.std.specs.Prelude.{◌≡◌, ◌+◌, ◌<◌, ◌≤◌, length};
ghost use Rattle.std.proofs.lemmas.List.Edits.{sets};
ghost use Rattle.lists.specs.Tab.{tab, word};
ghost use Rattle.answer.specs.Refusal.{overwrite};
ghost use Rattle.tuple.specs.Tuple.{sender, receiver};
ghost use Rattle.tuple.specs.Call.{interaction_of};
ghost use Rattle.tuple.specs.declared.Bus.TheVariants.{Keccak};
ghost use Rattle.keccak.specs.Columns.{NUM-COLUMNS, MU, by_xyb, lane_column};
ghost use Rattle.keccak.specs.Tuples.{keccak_values, core_sent, core_received};
ghost use Rattle.keccak_state_tuples.specs.Parts.{sheet_word};

use fips202::first_round;
use keccak::{INPUT_STATE, MU, OUTPUT_STATE, TIMESTAMP_0, TIMESTAMP_1};
use lists::put_part;
use tuple::{Bus, BusInteraction, Side};

pub mod memw;

// The five lanes of a column x of the state.
fn put_sheet(out: &mut [u64], at: usize, row: &[u64], base: usize, x: usize)
    requires { (at + 40 ≤ length out.old) × (base + 200 ≤ length row.now) × (x < 5) }
    ensures { out.new ≡ sets out.old at (tab 40 (sheet_word row.now base x)) }
{
    for y in 0..5 {
        put_part(out, at + 8 * y, row, base + (x + 5 * y) * 8, 8);
    }
}

// The 200 words of a state that stands from column `base` on.
fn put_state(out: &mut [u64], at: usize, row: &[u64], base: usize)
    requires { (at + 200 ≤ length out.old) × (base + 200 ≤ length row.now) }
    ensures { out.new ≡ sets out.old at (tab 200 (by_xyb (λ x y b. word row.now (lane_column base x y b)))) }
{
    for x in 0..5 {
        put_sheet(out, at + 40 * x, row, base, x);
    }
}

// The 203 values of a Keccak tuple.
fn put_keccak_values(out: &mut [u64], row: &[u64], round: u64, base: usize)
    requires { (203 ≤ length out.old) × (2 ≤ length row.now) × (base + 200 ≤ length row.now) }
    ensures { out.new ≡ overwrite (keccak_values (word row.now 0) (word row.now 1) round (λ x y b. word row.now (lane_column base x y b))) out.old }
{
    out[0] = row[TIMESTAMP_0];
    out[1] = row[TIMESTAMP_1];
    out[2] = round;
    put_state(out, 3, row, base);
}

// 2: INPUT is sent at round 24 - nr.
pub fn keccak_sent(nr: usize, row: &[u64], out: &mut [u64]) -> BusInteraction
    requires { (NUM-COLUMNS ≤ length row.now) × (203 ≤ length out.old) }
    ensures answer { result ≡ interaction_of (sender Keccak (word row.now MU) (core_sent nr row.now)) }
    ensures words { out.new ≡ overwrite (core_sent nr row.now) out.old }
{
    let round = first_round(nr);
    put_keccak_values(out, row, round, INPUT_STATE);
    BusInteraction {
        bus: Bus::Keccak,
        side: Side::Sender,
        length: 203,
        multiplicity: row[MU],
    }
}

// 3: OUTPUT is received after round 23.
pub fn keccak_received(row: &[u64], out: &mut [u64]) -> BusInteraction
    requires { (NUM-COLUMNS ≤ length row.now) × (203 ≤ length out.old) }
    ensures answer { result ≡ interaction_of (receiver Keccak (word row.now MU) (core_received row.now)) }
    ensures words { out.new ≡ overwrite (core_received row.now) out.old }
{
    put_keccak_values(out, row, 24, OUTPUT_STATE);
    BusInteraction {
        bus: Bus::Keccak,
        side: Side::Receiver,
        length: 203,
        multiplicity: row[MU],
    }
}
