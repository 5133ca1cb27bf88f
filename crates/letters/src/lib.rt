// Words judged: which bytes are letters, and whether the tables lent with a word are long enough.
#![tactic(auto)]

ghost use Rattle.std.specs.Prelude.{◌≡◌};
ghost use Rattle.refusals.specs.Outcomes.{verdict_of, drop_value};
ghost use Rattle.letters.specs.Judging.{judged};

use refusals::{LIMIT, Refusal};

mod scan;

// Refusals 1, 2 and 6, in this order; the lengths are those of the two tables.
pub fn judge(word: &[u8], b_length: usize, a_length: usize) -> Result<(), Refusal>
    ensures { verdict_of result ≡ drop_value (judged word.now b_length a_length) }
{
    let n = word.len();
    if LIMIT < n {
        return Err(Refusal::TooManyLetters);
    }
    if let Some(offset) = scan::not_letter(word) {
        return Err(Refusal::NotLetter(offset));
    }
    if b_length < n + 1 || a_length < n + 1 {
        return Err(Refusal::ShortTable);
    }
    Ok(())
}
