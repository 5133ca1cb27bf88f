// The form of a product of powers, read off into tables of the engine's own and handed over to the tables that are
// lent.
ghost use Rattle.forest.specs.inside.Handing.{HandedOver, PileReady, PileRead};

use crate::cells::LAST_TIP;
use crate::leaves::{Levels, read_off};
use refusals::{Failure, LIMIT, Refusal};

// The entries of an own table: one for each index up to the limit.
const TABLE: usize = LIMIT + 1;

// The own tables copied to the lent ones: 11 where bushes are left behind the levels that were read, then 6.
fn hand_over(
    levels: Levels,
    b: &[u16; TABLE],
    a: &[u16; TABLE],
    b_table: &mut [u16],
    a_table: &mut [u16],
) -> Result<usize, Failure>
    ensures { HandedOver levels.read levels.height b.now a.now
        b_table.old a_table.old b_table.new a_table.new result }
{
    if levels.height != 0 {
        return Err(Failure::Refused(Refusal::HighIndex));
    }
    if b_table.len() < TABLE || a_table.len() < TABLE {
        return Err(Failure::Refused(Refusal::ShortTable));
    }
    copying::copy_front(b, b_table, TABLE);
    copying::copy_front(a, a_table, TABLE);
    Ok(levels.read)
}

// The row of powers on the stack, read off and handed over.
pub fn read_pile(
    lefts: &[u16],
    rights: &[u16],
    stack: &mut [u16],
    height: usize,
    b_table: &mut [u16],
    a_table: &mut [u16],
) -> Result<usize, Failure>
    requires { PileReady lefts.now rights.now stack.old height }
    ensures { PileRead lefts.now rights.now stack.old height
        b_table.old a_table.old b_table.new a_table.new result }
{
    let mut b = [0u16; TABLE];
    let mut a = [0u16; TABLE];
    let levels = read_off(
        LAST_TIP, lefts, rights, stack, height, &mut b, &mut a, TABLE,
    );
    hand_over(levels, &b, &a, b_table, a_table)
}
