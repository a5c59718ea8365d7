// The arguments of `tally`, word by word.
#![tactic(auto)]

ghost use Rattle.std.specs.Prelude.{◌≡◌};
ghost use Rattle.tally_arguments.specs.Arguments.{is_shipped, is_digit, floor_in, plain, argument_of};

// What the words so far say: the floor of both tables' heights, and whether the tables of an empty file are shipped.
#[derive(Clone, Copy)]
pub struct Call {
    pub floor: u64,
    pub shipped: bool,
}

// The largest number that a floor can be.
const MOST: u64 = 18446744073709551615;

// What no word says.
pub fn no_arguments() -> Call
    ensures { result ≡ plain }
{
    Call {
        floor: 4,
        shipped: false,
    }
}

fn is_shipped(word: &[u8]) -> bool
    ensures { result ≡ is_shipped word.now }
{
    check::same(word, b"shipped")
}

fn is_digit(b: u8) -> bool
    ensures { result ≡ is_digit b }
{
    if b < 48 {
        return false;
    }
    b < 58
}

// The floor that a word tells: its decimal, or 0 where a byte is no digit; the empty word ends at 0 too. Where one digit
// more leads past 2^64 - 1 the word is read no further: whatever follows, it is floor 0.
fn read_floor(word: &[u8]) -> u64
    ensures { result ≡ floor_in word.now }
{
    let mut value: u64 = 0;
    for i in 0..word.len() {
        if !is_digit(word[i]) {
            return 0;
        }
        let digit = (word[i] - 48) as u64;
        if value > (MOST - digit) / 10 {
            return 0;
        }
        value = value * 10 + digit;
    }
    value
}

// What one more word says. A word may be of any length.
pub fn read_argument(call: Call, word: &[u8]) -> Call
    ensures { result ≡ argument_of call word.now }
{
    if is_shipped(word) {
        return Call {
            floor: call.floor,
            shipped: true,
        };
    }
    Call {
        floor: read_floor(word),
        shipped: call.shipped,
    }
}
