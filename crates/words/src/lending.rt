// Word to record with scratch that is long enough for the word.
ghost use Rattle.std.specs.Prelude.{◌≡◌, ◌≤◌, true, length, ltb};
ghost use Rattle.records.specs.Format.{buffer_size};
ghost use Rattle.refusals.specs.Memory.{memory};
ghost use Rattle.forest.specs.inside.Filling.{cells, fits, fits_for, last_tip_value};
ghost use Rattle.words.specs.Recording.{Recorded};

use crate::record_with;
use records::BASE_SIZE;
use refusals::{Failure, Refusal};

// A word of at most so many letters is worked out in short scratch: to clear long arrays takes longer than all the
// rest.
pub const SMALL: usize = 64;

// The sizes of the scratch for a word of SMALL letters.
pub const SMALL_CELLS: usize = SMALL + SMALL + 1;

pub const SMALL_ROOM: usize = SMALL + 2;

// Whether a record buffer is too short for a word of so many letters.
pub fn is_short(record: usize, letters: usize) -> bool
    ensures { result ≡ ltb «record» (buffer_size letters) }
{
    record < BASE_SIZE || (record - BASE_SIZE) / 4 < letters
}

// Word to record with scratch that is lent and long enough, in slices as `record_with` takes them.
pub fn record_fitting(
    word: &[u8],
    b_table: &mut [u16],
    a_table: &mut [u16],
    record: &mut [u8],
    lefts: &mut [u16],
    rights: &mut [u16],
    stack: &mut [u16],
) -> Result<usize, Refusal>
    requires { fits word.now lefts.old rights.old stack.old ≡ true }
    ensures { Recorded word.now
        (memory b_table.old a_table.old «record».old)
        (memory b_table.new a_table.new «record».new) result }
{
    match record_with(word, b_table, a_table, record, lefts, rights, stack) {
        Ok(n) => Ok(n),
        Err(Failure::Refused(r)) => Err(r),
        // Proved here, from what is lent here: so this match is no function of its callers.
        Err(Failure::Unfit) => unreachable!(),
    }
}

// Word to record with own scratch of these sizes.
pub fn record_sized<const CELLS: usize, const ROOM: usize>(
    word: &[u8],
    b_table: &mut [u16],
    a_table: &mut [u16],
    record: &mut [u8],
) -> Result<usize, Refusal>
    requires fit { fits_for (last_tip_value (length word.now)) CELLS CELLS ROOM ≡ true }
    requires size { (CELLS ≤ cells) × (ROOM ≤ cells) }
    ensures { Recorded word.now
        (memory b_table.old a_table.old «record».old)
        (memory b_table.new a_table.new «record».new) result }
{
    let mut lefts = [0u16; CELLS];
    let mut rights = [0u16; CELLS];
    let mut stack = [0u16; ROOM];
    record_fitting(
        word,
        b_table,
        a_table,
        record,
        &mut lefts,
        &mut rights,
        &mut stack,
    )
}
