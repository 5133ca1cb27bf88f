// Two words: same, inverse or different by their records. Both are judged before anything is written, and nothing that
// was lent is touched on a refusal.
#![tactic(auto)]

ghost use Rattle.std.specs.Prelude.{◌≡◌, Ok, true};
ghost use Rattle.refusals.specs.Memory.{memory};
ghost use Rattle.records.specs.Reading.{frames};
ghost use Rattle.comparisons.specs.Comparing.{decision_of, verdict_on, Compared};

use forest::Scratch;
use refusals::Refusal;

// Whether two words have one record, or the one's is the other's with its sides exchanged, or neither.
#[derive(Clone, Copy, Debug, PartialEq, Eq)]
pub enum Comparison {
    Same,
    Inverse,
    Different,
}

// The refusal of the first of two words or of the second.
#[derive(Clone, Copy)]
pub enum RefusedWord {
    First(Refusal),
    Second(Refusal),
}

// The verdict on two records.
fn verdict(record1: &[u8], record2: &[u8]) -> Comparison
    requires { (frames record1.now ≡ true) × (frames record2.now ≡ true) }
    ensures { decision_of (Ok result) ≡ verdict_on record1.now record2.now }
{
    if record1 == record2 {
        Comparison::Same
    } else if records::is_exchange(record1, record2) {
        Comparison::Inverse
    } else {
        Comparison::Different
    }
}

// Two words: same, inverse or different by their records. Both are judged before anything is written, the first word
// first; the second finds the scratch as the first left it. The eight parameters are named in docs/MANUAL.md.
pub fn same_element(
    word1: &[u8],
    b_table1: &mut [u16],
    a_table1: &mut [u16],
    record1: &mut [u8],
    word2: &[u8],
    b_table2: &mut [u16],
    a_table2: &mut [u16],
    record2: &mut [u8],
) -> Result<Comparison, RefusedWord>
    ensures { Compared word1.now
        (memory b_table1.old a_table1.old record1.old)
        (memory b_table1.new a_table1.new record1.new)
        word2.now
        (memory b_table2.old a_table2.old record2.old)
        (memory b_table2.new a_table2.new record2.new) result }
{
    words::judge(word1, b_table1.len(), a_table1.len(), record1.len()).map_err(RefusedWord::First)?;
    words::judge(word2, b_table2.len(), a_table2.len(), record2.len()).map_err(
        RefusedWord::Second,
    )?;
    let mut scratch = Scratch::new();
    let first = words::record_in(word1, b_table1, a_table1, record1, &mut scratch).unwrap();
    let second = words::record_in(word2, b_table2, a_table2, record2, &mut scratch).unwrap();
    Ok(verdict(&record1[..first], &record2[..second]))
}
