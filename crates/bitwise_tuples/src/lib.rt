// tables/bitwise.rs: the ten tuples of a row.
#![tactic(auto)]

ghost use Rattle.std.specs.Prelude.{◌≡◌};
ghost use Rattle.tuple.specs.Call.{tuple_answer_of, tuple_after};
ghost use Rattle.bitwise.specs.Columns.{NUM-COLUMNS, NUM-LOOKUP-TYPES};
ghost use Rattle.bitwise.specs.Tuples.{bitwise_tuple};

use answer::Refusal;
use bitwise::{NUM_COLUMNS, NUM_LOOKUP_TYPES, NUM_PRECOMPUTED_COLS};
use kinds::{kind_at, kind_bus, kind_size};
use lists::put_words;
use tuple::check::check_tuple;
use tuple::{BusInteraction, Side};
use values::kind_values;

pub mod kinds;
pub mod values;

// Tuple `index` of a row of 21 columns: its values go into `out`.
pub fn bus_interaction(
    row: &[u64],
    index: usize,
    out: &mut [u64],
) -> Result<BusInteraction, Refusal>
    ensures answer { result ≡ tuple_answer_of NUM-COLUMNS NUM-LOOKUP-TYPES bitwise_tuple row.now index out.old }
    ensures words { out.new ≡ tuple_after NUM-COLUMNS NUM-LOOKUP-TYPES bitwise_tuple row.now index out.old }
{
    let kind = kind_at(index);
    let length = kind_size(kind);
    let room = out.len();
    check_tuple(NUM_COLUMNS, NUM_LOOKUP_TYPES, row, index, length, room)?;
    let values = kind_values(row, kind);
    put_words(out, 0, &values, length);
    Ok(BusInteraction {
        bus: kind_bus(kind),
        side: Side::Receiver,
        length,
        multiplicity: row[NUM_PRECOMPUTED_COLS + index],
    })
}
