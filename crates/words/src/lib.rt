// Word to record, also with scratch that is lent: judged first, and nothing that was lent is touched on a refusal.
#![tactic(auto)]

ghost use Rattle.std.specs.Prelude.{◌≡◌};
ghost use Rattle.refusals.specs.Outcomes.{verdict_of, drop_value};
ghost use Rattle.refusals.specs.Memory.{memory};
ghost use Rattle.words.specs.Recording.{judged_record, Recorded};
ghost use Rattle.words.specs.inside.Lending.{RecordedWith};

use forest::{CELLS, ROOM, Scratch};
pub use lending::SMALL;
use lending::{SMALL_CELLS, SMALL_ROOM};
use refusals::{Failure, Refusal};

mod lending;

// Refusals 1, 2, 6 and 7, in this order; the lengths are those of the two tables and of the record buffer.
pub fn judge(
    word: &[u8],
    b_length: usize,
    a_length: usize,
    record_length: usize,
) -> Result<(), Refusal>
    ensures { verdict_of result ≡ drop_value (judged_record word.now b_length a_length
        record_length) }
{
    letters::judge(word, b_length, a_length)?;
    if record_length < records::BASE_SIZE + 4 * word.len() {
        return Err(Refusal::ShortBuffer);
    }
    Ok(())
}

// Word to record with scratch that is lent, of any content: with m the lesser of the word's letters and the limit,
// `lefts` and `rights` of at least 2 · m + 1 entries and `stack` of at least m + 2. So CELLS, CELLS and ROOM entries of
// `forest` serve every word.
// Kept three slices of any length: the README and docs/DECISIONS.md name this call.
pub fn record_with(
    word: &[u8],
    b_table: &mut [u16],
    a_table: &mut [u16],
    record: &mut [u8],
    lefts: &mut [u16],
    rights: &mut [u16],
    stack: &mut [u16],
) -> Result<usize, Failure>
    ensures { RecordedWith word.now
        (memory b_table.old a_table.old «record».old)
        (memory b_table.new a_table.new «record».new)
        lefts.old rights.old stack.old lefts.new rights.new
        stack.new result }
{
    if lending::is_short(record.len(), word.len()) {
        if !forest::word_fits(word.len(), lefts.len(), rights.len(), stack.len()) {
            return Err(Failure::Unfit);
        }
        // The buffer is too short, so the word is refused: by 7, or by what comes before it.
        judge(word, b_table.len(), a_table.len(), record.len())?;
        unreachable!()
    }
    let levels = forest::fill_tables(word, b_table, a_table, lefts, rights, stack)?;
    encoding::write_record(&b_table[..levels], &a_table[..levels], record)
}

// Word to record with scratch that serves every word.
pub fn record_in(
    word: &[u8],
    b_table: &mut [u16],
    a_table: &mut [u16],
    record: &mut [u8],
    scratch: &mut Scratch,
) -> Result<usize, Refusal>
    ensures { Recorded word.now
        (memory b_table.old a_table.old «record».old)
        (memory b_table.new a_table.new «record».new) result }
{
    lending::record_fitting(
        word,
        b_table,
        a_table,
        record,
        &mut scratch.lefts,
        &mut scratch.rights,
        &mut scratch.stack,
    )
}

// Word to record: the exponents of the word's reduced form in the two tables, its record at the front of the buffer.
pub fn word_to_record(
    word: &[u8],
    b_table: &mut [u16],
    a_table: &mut [u16],
    record: &mut [u8],
) -> Result<usize, Refusal>
    ensures { Recorded word.now
        (memory b_table.old a_table.old «record».old)
        (memory b_table.new a_table.new «record».new) result }
{
    if word.len() <= SMALL {
        lending::record_sized::<SMALL_CELLS, SMALL_ROOM>(word, b_table, a_table, record)
    } else {
        lending::record_sized::<CELLS, ROOM>(word, b_table, a_table, record)
    }
}
