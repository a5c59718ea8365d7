// The verdict as one English line: `holds 3`, `core row 0 value 12`, `round row 7 lookup 223 ByteAlu 2 17 5 20`.
#![tactic(auto)]

ghost use Rattle.std.specs.Prelude.{◌≡◌, ◌++◌, ◌+◌, ◌≤◌, length, take};
ghost use Rattle.std.proofs.Math.Option.{some};
ghost use Rattle.std.proofs.lemmas.List.Edits.{sets};
ghost use Rattle.answer.specs.Refusal.{accepted, not_rounds, too_short, answer_of, number_of, overwrite, afterwards};
ghost use Rattle.text.specs.Text.{Puts, spaced, joined};
ghost use Rattle.tuple.specs.Call.{interaction_of};
ghost use Rattle.verdict.specs.CoreAndRound.{verdict_for};
ghost use Rattle.verdict.specs.declared.Verdict.TheVariants.{Holds};
ghost use Rattle.judge.specs.Checks.{not_rows};
ghost use Rattle.verdict_line.specs.Line.{LINE-MOST, tuple_at, shown_of, place_words, words_of, shown_words};
ghost use Rattle.verdict_line.specs.Line.{Judged, line_by, refused_by, answer_by, after_by, line_answer, line_after};
ghost use Rattle.verdict_line.specs.Line.{within_line_answer, within_line_after, within_line_left};
ghost use Rattle.verdict_line.specs.Named.{Named};

use answer::{Refusal, check_rounds};
use judge::checks::check_rows;
use judge::verdict;
use judge_scan::row_at;
use judge_within::verdict_within;
use keccak_rnd_tuples;
use keccak_tuples;
use text::put;
use text::spaced::{put_bus, put_number, put_values};
use tuple::BusInteraction;
use verdict::{Table, Verdict};
use words::put_place;

pub mod words;

// No line is longer.
pub const LINE_MOST: usize = 4335;

// No tuple has more values.
const VALUES_MOST: usize = 203;

// Tuple `index` of a row of one of the tables, for nr rounds: its values go into `out`. Ecall is not looked up, so no
// syscall number shows.
fn tuple_at(
    nr: usize,
    core: &[u64],
    round: &[u64],
    table: Table,
    row: usize,
    index: usize,
    out: &mut [u64],
) -> BusInteraction
    requires { Named core.now round.now table row index × (203 ≤ length out.old) }
    ensures answer { result ≡ interaction_of (tuple_at nr core.now round.now table row index) }
    ensures words { out.new ≡ overwrite (tuple_at nr core.now round.now table row index).values out.old }
{
    match table {
        Table::Core => {
            let words = row_at(core, Table::Core, row);
            keccak_tuples::row_tuple(nr, words, index, 0, out)
        }
        Table::Round => {
            let words = row_at(round, Table::Round, row);
            keccak_rnd_tuples::row_tuple(words, index, out)
        }
    }
}

// The bus's name and the tuple's values, behind the words before them.
fn put_shown(
    nr: usize,
    core: &[u64],
    round: &[u64],
    table: Table,
    row: usize,
    index: usize,
    out: &mut [u8],
    at: usize,
) -> usize
    requires { Named core.now round.now table row index × (at + 4274 ≤ length out.old) }
    ensures { Puts out.old at (spaced (shown_words (some (shown_of (tuple_at nr core.now round.now table row index))))) out.new result × (result ≤ at + 4274) }
{
    let mut values = [0u64; VALUES_MOST];
    let tuple = tuple_at(nr, core, round, table, row, index, &mut values);
    let bus = tuple.bus;
    let length = tuple.length;
    let end = put_bus(out, at, bus);
    put_values(&values, length, out, end)
}

// The line of a lookup or a balance.
fn put_failure(
    nr: usize,
    core: &[u64],
    round: &[u64],
    table: Table,
    row: usize,
    what: &[u8],
    index: usize,
    out: &mut [u8],
) -> usize
    requires { Named core.now round.now table row index × (length what.now ≤ 9) × (LINE-MOST ≤ length out.old) }
    ensures { Puts out.old 0 (joined (place_words table row what.now index ++ shown_words (some (shown_of (tuple_at nr core.now round.now table row index))))) out.new result × (result ≤ LINE-MOST) }
{
    let end = put_place(out, table, row, what, index);
    put_shown(nr, core, round, table, row, index, out, end)
}

// `holds N`.
fn put_holds(out: &mut [u8], active: usize) -> usize
    requires { 26 ≤ length out.old }
    ensures { Puts out.old 0 (joined (words_of (Holds active))) out.new result × (result ≤ 26) }
{
    let end = put(out, 0, b"holds");
    put_number(out, end, active as u64)
}

// The line of a verdict; answers its length, or the verdict's refusal, which has no line.
fn put_line(
    nr: usize,
    verdict: Verdict,
    core: &[u64],
    round: &[u64],
    out: &mut [u8],
) -> Result<u64, Refusal>
    requires { (Judged verdict → verdict ≡ verdict_for nr core.now round.now) × (LINE-MOST ≤ length out.old) }
    ensures answer { result ≡ number_of (length (line_by nr core.now round.now verdict)) (refused_by verdict accepted) }
    ensures bytes { out.new ≡ sets out.old 0 (line_by nr core.now round.now verdict) }
    ensures most { length (line_by nr core.now round.now verdict) ≤ LINE-MOST }
{
    match verdict {
        Verdict::Value { table, row, index } => {
            Ok(put_place(out, table, row, b"value", index) as u64)
        }
        Verdict::Repeated { row } => {
            Ok(put_place(out, Table::Core, row, b"timestamp", 0) as u64)
        }
        Verdict::Lookup { table, row, index } => {
            Ok(put_failure(nr, core, round, table, row, b"lookup", index, out) as u64)
        }
        Verdict::Unbalanced { table, row, index } => {
            Ok(put_failure(nr, core, round, table, row, b"balance", index, out) as u64)
        }
        Verdict::Holds { active } => Ok(put_holds(out, active) as u64),
        Verdict::Refused(refusal) => Err(refusal),
    }
}

// The first n bytes of a text into a lent slice, unless it is too short for them.
fn copy_line(text: &[u8], n: usize, line: &mut [u8]) -> Result<u64, Refusal>
    requires { n ≤ length text.now }
    ensures answer { result ≡ number_of n (too_short (length line.old) n accepted) }
    ensures bytes { line.new ≡ afterwards (too_short (length line.old) n accepted) (overwrite (take n text.now) line.old) line.old }
{
    if line.len() < n {
        return Err(Refusal::TooShort(n as u64));
    }
    put(line, 0, &text[..n]);
    Ok(n as u64)
}

// The line of a verdict on a core table and a round table for nr rounds, into the lent bytes; answers its length.
fn write_line(
    nr: usize,
    judged: Verdict,
    core: &[u64],
    round: &[u64],
    line: &mut [u8],
) -> Result<u64, Refusal>
    requires { Judged judged → judged ≡ verdict_for nr core.now round.now }
    ensures answer { result ≡ answer_by nr core.now round.now judged line.old }
    ensures bytes { line.new ≡ after_by nr core.now round.now judged line.old }
{
    let mut text = [0u8; LINE_MOST];
    match put_line(nr, judged, core, round, &mut text) {
        Err(refusal) => Err(refusal),
        Ok(n) => copy_line(&text, n as usize, line),
    }
}

// The line of the verdict on a core table and a round table for nr rounds, into the lent bytes; answers its length.
pub fn verdict_line(nr: u64, core: &[u64], round: &[u64], line: &mut [u8]) -> Result<u64, Refusal>
    ensures answer { result ≡ line_answer nr core.now round.now line.old }
    ensures bytes { line.new ≡ line_after nr core.now round.now line.old }
{
    let judged = verdict(nr, core, round);
    write_line(nr as usize, judged, core, round, line)
}

// What is checked before the tables are judged in lent memory: the number of rounds, whole rows, and room for every line.
fn check_line(nr: u64, core: &[u64], round: &[u64], room: usize) -> Result<(), Refusal>
    ensures { result ≡ answer_of (not_rounds nr (not_rows core.now round.now (too_short room LINE-MOST accepted))) }
{
    check_rounds(nr)?;
    check_rows(core, round)?;
    if room < LINE_MOST {
        return Err(Refusal::TooShort(LINE_MOST as u64));
    }
    Ok(())
}

// The line of the verdict in lent memory. It is lent LINE_MOST bytes at least, so that no line is too long for them once the
// tables are judged: a refusal leaves `scratch` and `spare` as they were, and else they are as `verdict_within` leaves them.
pub fn verdict_line_within<'a>(
    nr: u64,
    core: &'a [u64],
    round: &'a [u64],
    line: &mut [u8],
    scratch: &mut [u64],
    spare: &mut [u64],
) -> Result<u64, Refusal>
    ensures answer { result ≡ within_line_answer nr core.now round.now (length line.old) (length scratch.old) (length spare.old) }
    ensures bytes { line.new ≡ within_line_after nr core.now round.now (length scratch.old) (length spare.old) line.old }
    ensures scratch { scratch.new ≡ within_line_left nr core.now round.now (length line.old) (length scratch.old) (length spare.old) scratch.old }
    ensures spare { spare.new ≡ within_line_left nr core.now round.now (length line.old) (length scratch.old) (length spare.old) spare.old }
{
    check_line(nr, core, round, line.len())?;
    let judged = verdict_within(nr, core, round, scratch, spare);
    put_line(nr as usize, judged, core, round, line)
}
