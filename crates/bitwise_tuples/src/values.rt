// tables/bitwise.rs: the values that a row holds for each kind of lookup.
ghost use Rattle.std.specs.Prelude.{◌≡◌, ◌<◌, ◌≤◌, length};
ghost use Rattle.lists.specs.Tab.{tab, word};
ghost use Rattle.field.specs.Field.{p, fadd, fmul};
ghost use Rattle.bitwise.specs.Tuples.{kind_values};

use bitwise::BitwiseOperationType;
use field::Fe;

// x + 256 y mod P.
fn half(x: u64, y: u64) -> u64
    requires { x < p }
    ensures { (result ≡ fadd x (fmul 256 y)) × (result < p) }
{
    let high = Fe { value: 256 }.mul(Fe { value: y });
    let sum = Fe { value: x }.add(high);
    sum.value
}

// x + 256 y + 65,536 z mod P.
fn twenty(x: u64, y: u64, z: u64) -> u64
    requires { x < p }
    ensures { result ≡ fadd (fadd x (fmul 256 y)) (fmul 65536 z) }
{
    let low = half(x, y);
    let high = Fe { value: 65536 }.mul(Fe { value: z });
    let sum = Fe { value: low }.add(high);
    sum.value
}

// The values of a kind, then zeros.
#[tactic(auto, unfolding(lists::specs::Tab::tab, lists::specs::Tab::tab_from))]
pub fn kind_values(row: &[u64], kind: BitwiseOperationType) -> [u64; 4]
    requires { (11 ≤ length row.now) × (word row.now 0 < p) }
    ensures { result ≡ tab 4 (word (kind_values row.now kind)) }
{
    let x = row[0];
    let y = row[1];
    let z = row[2];
    let sixteen = half(x, y);
    let whole = twenty(x, y, z);
    match kind {
        BitwiseOperationType::Msb8 => [x, row[6], 0, 0],
        BitwiseOperationType::Msb16 => [sixteen, row[7], 0, 0],
        BitwiseOperationType::Zero => [whole, row[8], 0, 0],
        BitwiseOperationType::AreBytes => [x, y, 0, 0],
        BitwiseOperationType::IsHalf => [sixteen, 0, 0, 0],
        BitwiseOperationType::IsB20 => [whole, 0, 0, 0],
        BitwiseOperationType::Hwsl => [sixteen, z, row[9], row[10]],
        BitwiseOperationType::ByteAluAnd => [0, x, y, row[3]],
        BitwiseOperationType::ByteAluOr => [1, x, y, row[4]],
        BitwiseOperationType::ByteAluXor => [2, x, y, row[5]],
    }
}
