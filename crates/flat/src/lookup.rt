// A lookup as a flat struct of words, and one whose kind is given by its number.
ghost use Rattle.std.specs.Prelude.{◌≡◌};
ghost use Rattle.flat.specs.FlatLookup.{of_kind, flat_lookup};

use super::FlatLookup;
use answer::Refusal;
use bitwise::NUM_LOOKUP_TYPES;
use bitwise_operations::{BitwiseOperation, lookup_type_index};

// Refused where the kind is past the last, before what the constructor says.
#[tactic(auto, unfolding(crate::specs::FlatLookup::of_kind))]
pub fn of_kind(
    kind: usize,
    answer: Result<BitwiseOperation, Refusal>,
) -> Result<BitwiseOperation, Refusal>
    ensures { result ≡ of_kind kind answer }
{
    if kind >= NUM_LOOKUP_TYPES {
        return Err(Refusal::PastEnd(NUM_LOOKUP_TYPES as u64));
    }
    answer
}

#[tactic(auto, unfolding(crate::specs::FlatLookup::flat_lookup))]
pub fn flat_lookup(answer: Result<BitwiseOperation, Refusal>) -> FlatLookup
    ensures { result ≡ flat_lookup answer }
{
    match answer {
        Ok(lookup) => {
            let kind = lookup.lookup_type;
            FlatLookup {
                refusal: 0,
                detail: 0,
                done: 1,
                kind: lookup_type_index(kind) as u64,
                x: lookup.x as u64,
                y: lookup.y as u64,
                z: lookup.z as u64,
            }
        }
        Err(refusal) => FlatLookup {
            refusal: refusal.number(),
            detail: refusal.detail(),
            done: 0,
            kind: 0,
            x: 0,
            y: 0,
            z: 0,
        },
    }
}
