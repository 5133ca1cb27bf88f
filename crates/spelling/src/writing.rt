// The letters of a spelling: the speller taken through both tables, with its letters written.
ghost use Rattle.std.specs.Prelude.{◌<◌, ◌≤◌, length};
ghost use Rattle.group.specs.Bytes.{bytes_of};
ghost use Rattle.group.specs.Limits.{limit};
ghost use Rattle.lists.specs.inside.Writes.{Wrote};
ghost use Rattle.spelling.specs.inside.Steps.{behind_runs, WroteRuns};
ghost use Rattle.spelling.specs.inside.Steps.{rising_runs, falling_runs, table_letters, table_spelling};

use super::speller;
use super::speller::Speller;
use refusals::{GeneratorIndex, LIMIT};

// The b side from index 1 on, indices rising. Not one loop with `counting`, for the reason given there.
fn write_rising(b: &[u16], start: Speller, word: &mut [u8]) -> Speller
    requires limit_in_bounds { limit < length b.now }
    requires b_in_bounds { (behind_runs start (rising_runs b.now)).count ≤ length word.old }
    ensures { WroteRuns (rising_runs b.now) start word.old word.new result }
{
    let mut state = start;
    for k in 1..=LIMIT {
        state = state.write(GeneratorIndex(k as u16), b[k], false, word);
    }
    state
}

// The a side down to index 1, indices falling.
fn write_falling(a: &[u16], start: Speller, word: &mut [u8]) -> Speller
    requires limit_in_bounds { limit < length a.now }
    requires a_in_bounds { (behind_runs start (falling_runs a.now)).count ≤ length word.old }
    ensures { WroteRuns (falling_runs a.now) start word.old word.new result }
{
    let mut state = start;
    for k in (1..=LIMIT).rev() {
        state = state.write(GeneratorIndex(k as u16), a[k], true, word);
    }
    state
}

// The spelling of two tables, at the front of a buffer; the answer is the number of its letters.
pub fn write(b: &[u16], a: &[u16], word: &mut [u8]) -> usize
    requires limit_in_bounds { (limit < length b.now) × (limit < length a.now) }
    requires a_in_bounds { table_letters b.now a.now ≤ length word.old }
    ensures { Wrote (bytes_of (table_spelling b.now a.now)) word.old 0
        word.new result }
{
    let top = write_rising(b, Speller::new(b[0]), word);
    let last = write_falling(a, top, word);
    speller::put_turn(word, last.count, last.due, usize::from(a[0]))
}
