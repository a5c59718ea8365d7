// The residue of the round's constant.
ghost use Rattle.std.specs.Prelude.{◌≡◌, ◌+◌};
ghost use Rattle.lists.specs.Tab.{word};
ghost use Rattle.field.specs.Elements.{ElementRow};
ghost use Rattle.keccak_rnd.specs.Columns.{NUM-COLUMNS};
ghost use Rattle.keccak_rnd.specs.Tuples.{constant_tuple};
ghost use Rattle.residue.specs.Residue.{constant_residue, residue};

use fips202::round_constant;
use keccak_rnd::{MU, RC, ROUND};

// The eight bytes in RC, and those of the constant.
fn constant_residue(row: &[u64], constant: u64) -> u64
    requires { ElementRow NUM-COLUMNS row.now }
    ensures { result ≡ constant_residue constant (λ b. word row.now (1463 + b)) }
{
    let mut off: u64 = 0;
    for b in 0..8 {
        let byte = (constant >> (8 * b)) % 256;
        off = (byte ^ row[RC + b]) | off;
    }
    off
}

// ROUND and its constant stand in the table of constants, whose rows are 0 to 31.
pub fn rc_residue(row: &[u64]) -> u64
    requires { ElementRow NUM-COLUMNS row.now }
    ensures { result ≡ residue (constant_tuple row.now) }
{
    if row[MU] == 0 {
        return 0;
    }
    let round = row[ROUND];
    if round >= 32 {
        return 1;
    }
    let constant = round_constant(round as usize);
    constant_residue(row, constant)
}
