// `tally`, and the operations of a file. A reader is passed by value from call to call; the host lends the file's bytes
// in pieces, cut anywhere.
ghost use Rattle.std.specs.Prelude.{◌≡◌, length};
ghost use Rattle.answer.specs.Refusal.{answer_of};
ghost use Rattle.op_file.specs.Reader.{feed_of, finish_of, file_start};
ghost use Rattle.op_list.specs.Files.{read_refusal, write_refusal, read_after, write_after};
ghost use Rattle.flat.specs.Flat.{flat_answer};
ghost use Rattle.flat.specs.FlatReader.{cursor_of, flat_cursor, flat_tally};

use flat::{FlatAnswer, FlatCursor, FlatTally};

#[unsafe(no_mangle)]
pub extern "C" fn keccak_tables_tally_start() -> FlatCursor
    ensures { result ≡ flat_cursor file_start }
{
    keccak_tables::tally_calls::keccak_tables_tally_start()
}

#[unsafe(no_mangle)]
pub extern "C" fn keccak_tables_tally_feed(cursor: FlatCursor, bytes: &[u8]) -> FlatCursor
    ensures { result ≡ flat_cursor (feed_of (cursor_of cursor) bytes.now) }
{
    keccak_tables::tally_calls::keccak_tables_tally_feed(cursor, bytes)
}

#[unsafe(no_mangle)]
pub extern "C" fn keccak_tables_tally_finish(
    floor: u64,
    shipped: bool,
    cursor: FlatCursor,
) -> FlatTally
    ensures { result ≡ flat_tally (finish_of floor shipped (cursor_of cursor)) }
{
    keccak_tables::tally_calls::keccak_tables_tally_finish(floor, shipped, cursor)
}

#[unsafe(no_mangle)]
pub extern "C" fn keccak_tables_read_operations(file: &[u8], ops: &mut [u64]) -> FlatAnswer
    ensures answer { result ≡ flat_answer (answer_of (read_refusal file.now (length ops.old))) }
    ensures words { ops.new ≡ read_after file.now ops.old }
{
    keccak_tables::tally_calls::keccak_tables_read_operations(file, ops)
}

#[unsafe(no_mangle)]
pub extern "C" fn keccak_tables_write_operations(ops: &[u64], file: &mut [u8]) -> FlatAnswer
    ensures answer { result ≡ flat_answer (answer_of (write_refusal (length file.old) ops.now)) }
    ensures words { file.new ≡ write_after ops.now file.old }
{
    keccak_tables::tally_calls::keccak_tables_write_operations(ops, file)
}
