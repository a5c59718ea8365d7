// Which words of a slice are no field elements.
ghost use Rattle.std.specs.Prelude.{◌≡◌, ◌≤◌, ◌<◌, length};
ghost use Rattle.std.proofs.Math.Option.{none};
ghost use Rattle.lists.specs.First.{place_of};
ghost use Rattle.field.specs.Field.{p};
ghost use Rattle.field.specs.Elements.{first_not_element};

use super::Fe;

// The OR of the first n words. No word is above it, so where it is below P each of them is an element; the loop has no
// branch, and most rows need no more than this.
fn joined(words: &[u64], n: usize) -> u64
    requires { n ≤ length words.now }
    ensures { result < p → first_not_element words.now n ≡ none }
{
    let mut all: u64 = 0;
    for k in 0..n {
        all = all | words[k];
    }
    all
}

// The place of the first of n words that is P or more, word by word.
fn scanned(words: &[u64], n: usize) -> Option<usize>
    requires { n ≤ length words.now }
    ensures { result ≡ place_of (first_not_element words.now n) }
{
    for k in 0..n {
        if words[k] >= Fe::P {
            return Some(k);
        }
    }
    None
}

// The place of the first of the first n words that is P or more.
pub fn first_not_element(words: &[u64], n: usize) -> Option<usize>
    requires { n ≤ length words.now }
    ensures { result ≡ place_of (first_not_element words.now n) }
{
    if joined(words, n) < Fe::P {
        return None;
    }
    scanned(words, n)
}
