// The reduced form's clause, tested on two tables of exponents (01, 'The reduced form'), and tables handed over.
#![tactic(auto)]

ghost use Rattle.clause.specs.inside.Tables.{BreakFound, HandedOver};

use refusals::{LIMIT, Refusal};

mod search;

// The entries of a table that is tested: the clause at the limit looks at one index more.
pub const TABLE: usize = LIMIT + 2;

// The entries of a table that are handed over: one for each index up to the limit.
pub const HANDED: usize = LIMIT + 1;

// The smallest index that breaks the clause, if any: block by block, then one by one in the block that has it.
pub fn check_tables(b: &[u16; TABLE], a: &[u16; TABLE]) -> Result<(), Refusal>
    ensures { BreakFound b.now a.now result }
{
    let start = search::first_block(b, a);
    search::first_break(b, a, start)
}

// The exponents in two tables, tested, and copied to the two that are lent: 5, then 6.
pub fn hand_over(
    b: &[u16; TABLE],
    a: &[u16; TABLE],
    b_table: &mut [u16],
    a_table: &mut [u16],
) -> Result<(), Refusal>
    ensures { HandedOver b.now a.now b_table.old a_table.old
        b_table.new a_table.new result }
{
    check_tables(b, a)?;
    if b_table.len() < HANDED || a_table.len() < HANDED {
        return Err(Refusal::ShortTable);
    }
    copying::copy_front(b, b_table, HANDED);
    copying::copy_front(a, a_table, HANDED);
    Ok(())
}
