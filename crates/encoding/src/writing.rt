// The record's bytes, written into a lent buffer: entries, fields, the whole.
// Each writer answers the place behind what it wrote.
ghost use Rattle.std.specs.Prelude.{◌≡◌, [], suc, ◌+◌, ◌<◌, ◌≤◌, length};
ghost use Rattle.group.specs.Limits.{limit};
ghost use Rattle.lists.specs.inside.Writes.{Wrote};
ghost use Rattle.records.specs.Format.{powers, put_power, entries, record_of, base_size};
ghost use Rattle.fields.specs.Fields.{field};
ghost use Rattle.encoding.specs.inside.Bodies.{encode_body, Counted};

use fields::integers::put_two;
use records::{A_TAG, B_TAG};

// The entry of an index and an exponent; none for exponent 0.
fn put_entry(out: &mut [u8], at: usize, index: usize, exponent: u16) -> usize
    requires { (at + length (entries (put_power index exponent [])) ≤ length out.old) × (index < 65536) }
    ensures { Wrote (entries (put_power index exponent [])) out.old at out.new result }
{
    if exponent == 0 {
        return at;
    }
    let next = put_two(out, at, index);
    put_two(out, next, usize::from(exponent))
}

// How many exponents of a table are not 0; no branch hangs on an exponent.
pub fn count_powers(table: &[u16]) -> usize
    ensures { (result ≡ length (powers 0 table.now)) × (result ≤ length table.now) }
{
    let mut count = 0;
    for &exponent in table {
        count += usize::from(exponent > 0);
    }
    count
}

// The entries of a table.
fn put_entries(table: &[u16], out: &mut [u8], at: usize) -> usize
    requires table_len_bound { length table.now ≤ suc limit }
    requires table_in_bounds { at + length (encode_body table.now) ≤ length out.old }
    ensures { Wrote (encode_body table.now) out.old at out.new result }
{
    let mut end = at;
    for (index, &exponent) in table.iter().enumerate() {
        end = put_entry(out, end, index, exponent);
    }
    end
}

// The field of a side, by its table and how many powers it has, at the front of the buffer.
fn put_side(tag: u8, table: &[u16], count: usize, out: &mut [u8]) -> usize
    requires counted { Counted table.now count }
    requires table_in_bounds { length (field tag (encode_body table.now)) ≤ length out.old }
    ensures { Wrote (field tag (encode_body table.now)) out.old 0 out.new result }
{
    out[0] = tag;
    let at = put_two(out, 1, 4 * count);
    put_entries(table, out, at)
}

// The record of tables with nb and na powers: the part behind the first field is lent on to the writer of the second.
pub fn put_record(b: &[u16], nb: usize, a: &[u16], na: usize, out: &mut [u8]) -> usize
    requires counted { Counted b.now nb × Counted a.now na }
    requires a_in_bounds { base_size + (length (encode_body b.now) + length (encode_body a.now)) ≤ length out.old }
    ensures { Wrote (record_of b.now a.now) out.old 0 out.new result }
{
    let at = put_side(B_TAG, b, nb, out);
    let more = put_side(A_TAG, a, na, &mut out[at..]);
    at + more
}
