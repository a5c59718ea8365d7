// A lookup by the Rust's constructors, its kind by its number: the words of it that a list of lookups has.
ghost use Rattle.std.specs.Prelude.{◌≡◌};
ghost use Rattle.bitwise.specs.Row.{index_refusal};
ghost use Rattle.bitwise.specs.Tuples.{kind_at};
ghost use Rattle.bitwise.specs.declared.BitwiseOperationType.TheVariants.{Zero, IsB20};
ghost use Rattle.bitwise_operations.specs.Operation.{operation, twenty_bits, operation_of, zero_refusal};
ghost use Rattle.flat.specs.FlatLookup.{of_kind, flat_lookup};
ghost use Rattle.std.specs.Prelude.{Ok};

use flat::FlatLookup;

#[unsafe(no_mangle)]
pub extern "C" fn keccak_tables_lookup_new(kind: usize, x: u8, y: u8, z: u8) -> FlatLookup
    ensures { result ≡ flat_lookup (of_kind kind (operation_of (operation (kind_at kind) x y z) (index_refusal z))) }
{
    keccak_tables::lookup_calls::keccak_tables_lookup_new(kind, x, y, z)
}

#[unsafe(no_mangle)]
pub extern "C" fn keccak_tables_lookup_byte_op(kind: usize, x: u8, y: u8) -> FlatLookup
    ensures { result ≡ flat_lookup (of_kind kind (Ok (operation (kind_at kind) x y 0))) }
{
    keccak_tables::lookup_calls::keccak_tables_lookup_byte_op(kind, x, y)
}

#[unsafe(no_mangle)]
pub extern "C" fn keccak_tables_lookup_single_byte(kind: usize, x: u8) -> FlatLookup
    ensures { result ≡ flat_lookup (of_kind kind (Ok (operation (kind_at kind) x 0 0))) }
{
    keccak_tables::lookup_calls::keccak_tables_lookup_single_byte(kind, x)
}

#[unsafe(no_mangle)]
pub extern "C" fn keccak_tables_lookup_halfword(kind: usize, x: u8, y: u8) -> FlatLookup
    ensures { result ≡ flat_lookup (of_kind kind (Ok (operation (kind_at kind) x y 0))) }
{
    keccak_tables::lookup_calls::keccak_tables_lookup_halfword(kind, x, y)
}

#[unsafe(no_mangle)]
pub extern "C" fn keccak_tables_lookup_zero(value: u32) -> FlatLookup
    ensures { result ≡ flat_lookup (operation_of (twenty_bits Zero value) (zero_refusal value)) }
{
    keccak_tables::lookup_calls::keccak_tables_lookup_zero(value)
}

#[unsafe(no_mangle)]
pub extern "C" fn keccak_tables_lookup_shift_op(kind: usize, x: u8, y: u8, z: u8) -> FlatLookup
    ensures { result ≡ flat_lookup (of_kind kind (operation_of (operation (kind_at kind) x y z) (index_refusal z))) }
{
    keccak_tables::lookup_calls::keccak_tables_lookup_shift_op(kind, x, y, z)
}

#[unsafe(no_mangle)]
pub extern "C" fn keccak_tables_lookup_b20(x: u8, y: u8, z: u8) -> FlatLookup
    ensures { result ≡ flat_lookup (operation_of (operation IsB20 x y z) (index_refusal z)) }
{
    keccak_tables::lookup_calls::keccak_tables_lookup_b20(x, y, z)
}
