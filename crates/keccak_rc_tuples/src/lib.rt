// tables/keccak_rc.rs: the one tuple of a row of round constants.
#![tactic(auto)]

ghost use Rattle.std.specs.Prelude.{◌≡◌};
ghost use Rattle.tuple.specs.Call.{tuple_answer_of, tuple_after};
ghost use Rattle.keccak_rc.specs.Columns.{NUM-COLUMNS};
ghost use Rattle.keccak_rc.specs.Tuples.{NUM-TUPLES, rc_tuple};

use answer::Refusal;
use keccak_rc::{MU, NUM_COLUMNS, NUM_PRECOMPUTED_COLS};
use lists::put_words;
use tuple::check::check_tuple;
use tuple::{Bus, BusInteraction, Side};

// Tuple `index` of a row of ten columns, of which it has one: its values go into `out`.
pub fn bus_interaction(
    row: &[u64],
    index: usize,
    out: &mut [u64],
) -> Result<BusInteraction, Refusal>
    ensures answer { result ≡ tuple_answer_of NUM-COLUMNS NUM-TUPLES rc_tuple row.now index out.old }
    ensures words { out.new ≡ tuple_after NUM-COLUMNS NUM-TUPLES rc_tuple row.now index out.old }
{
    let room = out.len();
    check_tuple(NUM_COLUMNS, 1, row, index, NUM_PRECOMPUTED_COLS, room)?;
    put_words(out, 0, row, NUM_PRECOMPUTED_COLS);
    Ok(BusInteraction {
        bus: Bus::KeccakRc,
        side: Side::Receiver,
        length: NUM_PRECOMPUTED_COLS,
        multiplicity: row[MU],
    })
}
