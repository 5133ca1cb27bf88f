// Many words in one call (02, [4]): the records of the lines of a list, one behind another, and for a refused word its
// number and place.
#![tactic(auto)]

ghost use Rattle.std.specs.Prelude.{◌≡◌, ltb};
ghost use Rattle.lines.specs.Lines.{lines_of};
ghost use Rattle.refusals.specs.Outcomes.{verdict_of, drop_value};
ghost use Rattle.refusals.specs.Memory.{memory};
ghost use Rattle.wordlists.specs.Items.{list_size};
ghost use Rattle.wordlists.specs.Listing.{list_judged, Listed};

use forest::Scratch;
use records::BASE_SIZE;
use refusals::{LIMIT, Refusal};

mod writing;

// Whether an output is too short for the lines of a list: 6 bytes a line, then four for each of their bytes, by what is
// left of it, so that no product is above it.
fn is_short(list: &[u8], out: usize) -> bool
    ensures { result ≡ ltb out (list_size (lines_of list.now)) }
{
    let counted = lines::count_lines(list);
    out / BASE_SIZE < counted.lines || (out - BASE_SIZE * counted.lines) / 4 < counted.bytes
}

// Refusals 6 and 7, in this order, before the first word is read; the lengths are those of the two tables and of the
// output.
pub fn judge_list(
    list: &[u8],
    b_length: usize,
    a_length: usize,
    out_length: usize,
) -> Result<(), Refusal>
    ensures { verdict_of result ≡ drop_value (list_judged list.now b_length a_length
        out_length) }
{
    if b_length < LIMIT + 1 || a_length < LIMIT + 1 {
        return Err(Refusal::ShortTable);
    }
    if is_short(list, out_length) {
        return Err(Refusal::ShortBuffer);
    }
    Ok(())
}

// Many words in one call: the items of the lines at the front of the output, the tables as one call a word leaves them,
// one after another. The value is the number of bytes written.
pub fn list_to_records(
    list: &[u8],
    b_table: &mut [u16],
    a_table: &mut [u16],
    records: &mut [u8],
) -> Result<usize, Refusal>
    ensures { Listed list.now
        (memory b_table.old a_table.old records.old)
        (memory b_table.new a_table.new records.new) result }
{
    judge_list(list, b_table.len(), a_table.len(), records.len())?;
    let mut scratch = Scratch::new();
    Ok(writing::put_items(list, b_table, a_table, records, &mut scratch))
}
