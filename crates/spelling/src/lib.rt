// The spelling of a record's form.
#![tactic(auto)]

ghost use Rattle.spelling.specs.Promises.{Spelled};

use refusals::{LIMIT, Refusal};

mod counting;
mod speller;
mod writing;

// Record to word: refusals 3, 4 and 5, then 8, then 7; else the spelling at the front of the buffer.
pub fn record_to_word(record: &[u8], word: &mut [u8]) -> Result<usize, Refusal>
    ensures { Spelled «record».now word.old word.new result }
{
    let mut b = [0u16; LIMIT + 1];
    let mut a = [0u16; LIMIT + 1];
    let read = records::record_to_tables(record, &mut b, &mut a);
    let Ok(()) = read else {
        return Err(read.unwrap_err());
    };
    let letters = counting::count(&b, &a);
    if LIMIT < letters {
        return Err(Refusal::LongSpelling);
    }
    if word.len() < letters {
        return Err(Refusal::ShortBuffer);
    }
    Ok(writing::write(&b, &a, word))
}
