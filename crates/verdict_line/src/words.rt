// Which table, row and index a line speaks of.
ghost use Rattle.std.specs.Prelude.{[], ◌∷◌, ◌≤◌, length};
ghost use Rattle.text.specs.Text.{Puts, joined};
ghost use Rattle.verdict_line.specs.Line.{table_name, place_words};

use text::put;
use text::spaced::{put_number, put_word};
use verdict::Table;

// The first word.
fn put_table(out: &mut [u8], table: Table) -> usize
    requires { 5 ≤ length out.old }
    ensures { Puts out.old 0 (joined (table_name table ∷ [])) out.new result × (result ≤ 5) }
{
    match table {
        Table::Core => put(out, 0, b"core"),
        Table::Round => put(out, 0, b"round"),
    }
}

// The table, `row R`, what failed, and its index.
pub fn put_place(out: &mut [u8], table: Table, row: usize, what: &[u8], index: usize) -> usize
    requires { (61 ≤ length out.old) × (length what.now ≤ 9) }
    ensures { Puts out.old 0 (joined (place_words table row what.now index)) out.new result × (result ≤ 61) }
{
    let e0 = put_table(out, table);
    let e1 = put_word(out, e0, b"row");
    let e2 = put_number(out, e1, row as u64);
    let e3 = put_word(out, e2, what);
    put_number(out, e3, index as u64)
}
