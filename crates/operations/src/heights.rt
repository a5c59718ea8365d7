// The height of a table.
ghost use Rattle.std.specs.Prelude.{◌≡◌, ◌^◌, ◌≤◌};
ghost use Rattle.keccak.specs.Height.{height};

// The height of a table of n rows that has `floor` rows or more.
pub fn table_height(floor: usize, n: usize) -> usize
    requires { n ≤ 2 ^ 63 }
    ensures { result ≡ height floor n }
{
    n.next_power_of_two().max(floor)
}
