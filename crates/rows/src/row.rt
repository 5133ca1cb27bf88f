// The receipt of a line.
ghost use Rattle.std.specs.Prelude.{◌+◌, ◌*◌, ◌≤◌, length};
ghost use Rattle.lists.specs.inside.Writes.{Wrote};
ghost use Rattle.refusals.specs.Refusals.{number_of, place_of};
ghost use Rattle.rows.specs.Receipts.{receipt_of, refusal_receipt, receipt_size};
ghost use Rattle.rows.specs.inside.Steps.{four_numbers, numbers_size, refusal_size, Measured};
ghost use Rattle.rows.specs.inside.Steps.{record_row, tables_row};

use crate::{Room, text};
use refusals::Refusal;

// Line number, `refused`, number, place.
fn put_refusal(number: u64, r: Refusal, out: &mut [u8]) -> usize
    requires { refusal_size ≤ length out.old }
    ensures { Wrote (refusal_receipt number (number_of r) (place_of r)) out.old 0
        out.new result }
{
    let behind_line = text::put_number(number, b' ', out, 0);
    let behind_word = printing::put(b"refused ", out, behind_line);
    let behind_number = text::put_number(r.number() as u64, b' ', out, behind_word);
    text::put_number(r.place() as u64, b'\n', out, behind_number)
}

// Four numbers, a space behind each; apart, as `record_row` has them.
fn put_numbers(k: u64, l: u64, m: u64, n: u64, out: &mut [u8]) -> usize
    requires { numbers_size ≤ length out.old }
    ensures { Wrote (four_numbers k l m n) out.old 0 out.new result }
{
    let behind_k = text::put_number(k, b' ', out, 0);
    let behind_l = text::put_number(l, b' ', out, behind_k);
    let behind_m = text::put_number(m, b' ', out, behind_l);
    text::put_number(n, b' ', out, behind_m)
}

// Four numbers and a record.
fn put_record(k: u64, l: u64, m: u64, n: u64, record: &[u8], out: &mut [u8]) -> usize
    requires { 85 + 2 * length «record».now ≤ length out.old }
    ensures { Wrote (record_row k l m n «record».now) out.old 0 out.new result }
{
    let behind_numbers = put_numbers(k, l, m, n, out);
    let behind_record = appending::append_hex(record, out, behind_numbers);
    printing::put(b"\n", out, behind_record)
}

// Line number, letters, carets, length and record; the carets and the length are those of two tables.
fn put_tables(
    number: u64,
    letters: usize,
    b: &[u16],
    a: &[u16],
    record: &[u8],
    out: &mut [u8],
) -> usize
    requires measured { Measured b.now a.now }
    requires room { 85 + 2 * length «record».now ≤ length out.old }
    ensures { Wrote (tables_row number letters b.now a.now «record».now)
        out.old 0 out.new result }
{
    let carets = trees::count_carets(b, a).unwrap();
    let least = scans::scan_length(b, a).unwrap();
    put_record(
        number,
        letters as u64,
        carets as u64,
        least as u64,
        record,
        out,
    )
}

// The receipt of a line, at the front of a buffer that has room for it.
pub fn put_line(number: u64, line: &[u8], out: &mut [u8], room: &mut Room) -> usize
    requires { receipt_size (length line.now) ≤ length out.old }
    ensures { Wrote (receipt_of number line.now) out.old 0 out.new result }
{
    let recorded = words::record_in(
        line,
        &mut room.b,
        &mut room.a,
        &mut room.record,
        &mut room.scratch,
    );
    match recorded {
        Err(r) => put_refusal(number, r, out),
        Ok(n) => {
            let entries = line.len() + 1;
            put_tables(
                number,
                line.len(),
                &room.b[..entries],
                &room.a[..entries],
                &room.record[..n],
                out,
            )
        }
    }
}
