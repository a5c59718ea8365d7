// The checks that every call for a tuple, or for the values of a row, makes before it writes.
ghost use Rattle.std.specs.Prelude.{◌≡◌};
ghost use Rattle.answer.specs.Refusal.{answer_of};
ghost use Rattle.tuple.specs.Values.{values_refusal};
ghost use Rattle.tuple.specs.Call.{sized_refusal};

use answer::Refusal;
use field::elements::first_not_element;

// The `count` values of a row of `width` columns go into a slice of `room` words.
pub fn check_values(width: usize, count: usize, row: &[u64], room: usize) -> Result<(), Refusal>
    ensures { result ≡ answer_of (values_refusal width count row.now room) }
{
    if row.len() < width {
        return Err(Refusal::TooShort(width as u64));
    }
    if room < count {
        return Err(Refusal::TooShort(count as u64));
    }
    if let Some(place) = first_not_element(row, width) {
        return Err(Refusal::NotElement(place as u64));
    }
    Ok(())
}

// Tuple `index` of `count`, of a row of `width` columns: its `size` values go into a slice of `room` words.
pub fn check_tuple(
    width: usize,
    count: usize,
    row: &[u64],
    index: usize,
    size: usize,
    room: usize,
) -> Result<(), Refusal>
    ensures { result ≡ answer_of (sized_refusal width count row.now index size room) }
{
    if index >= count {
        return Err(Refusal::PastEnd(count as u64));
    }
    check_values(width, size, row, room)
}
