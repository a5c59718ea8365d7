// An operation file against a core table.
ghost use Rattle.std.specs.Prelude.{◌≡◌};
ghost use Rattle.same_operations.specs.Same.{same_for};
ghost use Rattle.flat.specs.FlatJudged.{flat_agreement};

use flat::FlatAgreement;

#[unsafe(no_mangle)]
pub extern "C" fn keccak_tables_same_operations(core: &[u64], file: &[u8]) -> FlatAgreement
    ensures { result ≡ flat_agreement (same_for core.now file.now) }
{
    keccak_tables::same_calls::keccak_tables_same_operations(core, file)
}
