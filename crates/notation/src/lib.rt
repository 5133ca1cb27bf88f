// Subscript notation: read into a record, and written from one.
#![tactic(auto)]

ghost use Rattle.refusals.specs.Memory.{memory};
ghost use Rattle.notation.specs.Promises.{TextRecorded, TextWritten};

use powers::Powers;
use refusals::{LIMIT, Refusal};

mod powers;
mod reading;
mod writing;

// Text to record: refusals 9 and 10 of the text, 11, 6 and 7; else the exponents of its reduced form in the two tables,
// all entries up to the limit, and its record at the front of the buffer.
pub fn text_to_record(
    text: &[u8],
    b_table: &mut [u16],
    a_table: &mut [u16],
    record: &mut [u8],
) -> Result<usize, Refusal>
    ensures { TextRecorded text.now
        (memory b_table.old a_table.old «record».old)
        (memory b_table.new a_table.new «record».new) result }
{
    let mut indices = [0u16; LIMIT];
    let mut exponents = [0u16; LIMIT];
    let mut sides = [0u8; LIMIT];
    let tokens::Powers { count, sum } = tokens::read_text(
        text,
        &mut indices,
        &mut exponents,
        &mut sides,
    )?;
    let powers = Powers {
        indices: &indices[..count],
        exponents: &exponents[..count],
        sides: &sides[..count],
        sum,
    };
    powers.record(b_table, a_table, record)
}

// Record to text: refusals 3, 4 and 5, then 7; else the text at the front of the buffer.
pub fn record_to_text(record: &[u8], text: &mut [u8]) -> Result<usize, Refusal>
    ensures { TextWritten «record».now text.old text.new result }
{
    let mut b = [0u16; writing::TABLE];
    let mut a = [0u16; writing::TABLE];
    records::record_to_tables(record, &mut b, &mut a)?;
    writing::write(&b, &a, text)
}
