// The first index that breaks the reduced form's clause, by two tables of exponents.
ghost use Rattle.std.specs.Prelude.{◌≡◌, false, suc, ◌+◌, ◌≤◌};
ghost use Rattle.group.specs.Limits.{limit};
ghost use Rattle.clause.specs.inside.Tables.{is_break, BreakFound, Unbroken};

use crate::{HANDED, TABLE};
use refusals::{GeneratorIndex, Refusal};

// The indices of a block, and the whole blocks of the indices up to the limit.
const BLOCK: usize = 64;

const BLOCKS: usize = HANDED / BLOCK;

// Whether an index breaks the reduced form's clause, by its exponents and those of the next.
fn breaks(b: u16, a: u16, next_b: u16, next_a: u16) -> bool
    ensures { result ≡ is_break b a next_b next_a }
{
    b != 0 && a != 0 && next_b == 0 && next_a == 0
}

// Whether some index of a block breaks the clause. The loop has no exit, so that the compiler tests many at once.
fn block_breaks(b: &[u16; TABLE], a: &[u16; TABLE], start: usize) -> bool
    requires { start + 64 ≤ suc limit }
    ensures { result ≡ false → Unbroken b.now a.now start
        → Unbroken b.now a.now (start + 64) }
{
    let mut found = false;
    for i in start..start + BLOCK {
        found |= breaks(b[i], a[i], b[i + 1], a[i + 1]);
    }
    found
}

// Where the first block begins that has an index which breaks the clause; with none, where the last whole block ends.
pub fn first_block(b: &[u16; TABLE], a: &[u16; TABLE]) -> usize
    ensures { (result ≤ suc limit) × Unbroken b.now a.now result }
{
    for k in 0..BLOCKS {
        if block_breaks(b, a, BLOCK * k) {
            return BLOCK * k;
        }
    }
    BLOCK * BLOCKS
}

// The smallest index that breaks the clause, if any, where none below a start does.
pub fn first_break(b: &[u16; TABLE], a: &[u16; TABLE], start: usize) -> Result<(), Refusal>
    requires { (start ≤ suc limit) × Unbroken b.now a.now start }
    ensures { BreakFound b.now a.now result }
{
    for i in start..HANDED {
        if breaks(b[i], a[i], b[i + 1], a[i + 1]) {
            return Err(Refusal::NotReduced(GeneratorIndex(i as u16)));
        }
    }
    Ok(())
}
