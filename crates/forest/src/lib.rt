// The forest engine: the reduced form of a word, one letter in constant time, and of a product of powers.
#![tactic(auto)]

ghost use Rattle.std.specs.Prelude.{◌≡◌, replicate};
ghost use Rattle.forest.specs.inside.Filling.{last_tip_value, fits_for, FilledTables};
ghost use Rattle.forest.specs.inside.FillingPowers.{FilledPowers};

use refusals::{Failure, LIMIT};

mod cells;
mod fits;
mod handing;
mod leaves;
mod powers;
mod row;

// The entries of `lefts` and of `rights`, scratch of `fill_powers`, and of `fill_tables` for any word.
pub const CELLS: usize = LIMIT + LIMIT + 1;

// The entries of `stack`, scratch of `fill_tables` for any word.
pub const ROOM: usize = LIMIT + 2;

// The entries of `before`, scratch of `fill_powers`.
pub const FRONT_ROOM: usize = LIMIT + 1;

// The entries of `stack`, scratch of `fill_powers`.
pub const ROW_ROOM: usize = LIMIT + LIMIT + 4;

// Scratch of `fill_tables` that serves every word.
#[derive(Drop)]
pub struct Scratch {
    pub lefts: [u16; CELLS],
    pub rights: [u16; CELLS],
    pub stack: [u16; ROOM],
}

impl Scratch {
    // Cleared; any content would do.
    pub fn new() -> Scratch
        ensures cells { (result.lefts ≡ replicate CELLS 0) × (result.rights ≡ replicate CELLS 0) }
        ensures stack { result.stack ≡ replicate ROOM 0 }
    {
        Scratch {
            lefts: [0; CELLS],
            rights: [0; CELLS],
            stack: [0; ROOM],
        }
    }
}

// Whether scratch of these lengths is long enough for a word of so many letters. Of the lengths CELLS, CELLS and ROOM
// it is for every word, an overlong one too.
pub fn word_fits(letters: usize, lefts: usize, rights: usize, stack: usize) -> bool
    ensures { result ≡ fits_for (last_tip_value letters) lefts rights stack }
{
    let last = letters.min(LIMIT);
    let cells = last + last + 1;
    cells <= lefts && cells <= rights && last + 2 <= stack
}

// The exponents of the word's reduced form: entry i of the tables is b_i and a_i, for each i up to the number of
// letters. The scratch is long enough for the word and lent with any content; what it holds at exit is open.
pub fn fill_tables(
    word: &[u8],
    b_table: &mut [u16],
    a_table: &mut [u16],
    lefts: &mut [u16],
    rights: &mut [u16],
    stack: &mut [u16],
) -> Result<usize, Failure>
    ensures { FilledTables word.now b_table.old a_table.old
        lefts.old rights.old stack.old b_table.new
        a_table.new lefts.new rights.new stack.new result }
{
    if !word_fits(word.len(), lefts.len(), rights.len(), stack.len()) {
        return Err(Failure::Unfit);
    }
    letters::judge(word, b_table.len(), a_table.len())?;
    let last = word.len() as u16;
    let height = row::run(word, last, lefts, rights, stack);
    let end = word.len() + 1;
    let levels = leaves::read_off(last, lefts, rights, stack, height, b_table, a_table, end);
    Ok(levels.read)
}

// The exponents of the reduced form of a product of powers: entry i of the tables is b_i and a_i, for each i up to the
// limit. Power i is x_k^e where its side is 0, else x_k^−e, k and e the entries i of the indices and the exponents. The
// scratch is lent with any content; what it holds at exit is open.
// Kept three slices, with numbers for the sides: the README and docs/DECISIONS.md name this call.
pub fn fill_powers(
    indices: &[u16],
    exponents: &[u16],
    sides: &[u8],
    b_table: &mut [u16],
    a_table: &mut [u16],
    lefts: &mut [u16],
    rights: &mut [u16],
    before: &mut [u16],
    stack: &mut [u16],
) -> Result<usize, Failure>
    ensures { FilledPowers indices.now exponents.now sides.now
        b_table.old a_table.old lefts.old rights.old
        before.old stack.old b_table.new a_table.new result }
{
    if !fits::scratch_fits(lefts.len(), rights.len(), before.len(), stack.len()) {
        return Err(Failure::Unfit);
    }
    if !fits::powers_fit(indices, exponents, sides) {
        return Err(Failure::Unfit);
    }
    let height = powers::pile_powers(indices, exponents, sides, lefts, rights, before, stack);
    handing::read_pile(lefts, rights, stack, height, b_table, a_table)
}
