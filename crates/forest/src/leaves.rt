// The tips of the bushes on the stack, read off into two tables.
ghost use Rattle.std.specs.Prelude.{◌≤◌, ◌<◌, length};
ghost use Rattle.forest.specs.inside.Leaves.{Standing, TipRead, StemPassed, ZerosPut, TipsReady, TablesRead};

use crate::cells::{pop, push};

// The first tip of a bush: the left edges above it, its exponent, and the height of the stack with the bushes behind.
#[derive(Drop)]
pub struct Tip {
    pub edges: u16,
    pub exponent: u16,
    pub height: usize,
}

// How many levels were read, and the height of the stack with the bushes behind them.
#[derive(Drop)]
pub struct Levels {
    pub read: usize,
    pub height: usize,
}

// What is left of a bush below its stem: cells that each have the cell before them on the left and a tip of exponent
// 0 on the right. With no bush behind them these tips are not stored. No turn of the loop waits for a load before it:
// `next` is worked out in front of the loads, or the compiler takes what is loaded for it.
// Kept a `while`: a range down to `last` would need the code and the place below it, and a second end for low bushes.
fn below_stem(last: u16, lefts: &[u16], rights: &[u16], bush: u16, height: usize) -> u16
    requires { (bush < length lefts.now) × (bush < length rights.now) }
    ensures { StemPassed last lefts.now rights.now bush height result }
{
    let mut code = bush;
    if height != 0 {
        return code;
    }
    while last < code {
        let next = code - 1;
        let k = code as usize;
        if rights[k] != 0 || lefts[k] != next {
            return code;
        }
        code = next;
    }
    code
}

// The first tip of a bush; the bushes behind it go onto the stack. Kept a `while`: it goes from cell to cell, and how
// many it passes is not known before.
pub fn descend(
    last: u16,
    lefts: &[u16],
    rights: &[u16],
    stack: &mut [u16],
    bush: u16,
    low: usize,
) -> Tip
    requires { Standing last lefts.now rights.now stack.old bush low }
    ensures { TipRead last lefts.now rights.now stack.old bush low
        stack.new result.edges result.exponent result.height }
{
    let mut code = below_stem(last, lefts, rights, bush, low);
    let mut edges = bush - code;
    let mut height = low;
    while last < code {
        let k = code as usize;
        height = push(stack, height, rights[k]);
        code = lefts[k];
        edges += 1;
    }
    Tip {
        edges,
        exponent: code,
        height,
    }
}

// The entries from `low` on, up to `high`, become 0.
pub fn zero_rest(table: &mut [u16], low: usize, high: usize)
    requires { (low ≤ high) × (high ≤ length table.old) }
    ensures { ZerosPut table.old low high table.new }
{
    table[low..high].fill(0);
}

// The tips of the bushes on the stack, from the left, up to `end` of them: the left edges above tip i and its exponent
// are entry i of the tables. Where the stack is empty, only tips of exponent 0 are left.
// The slices go apart, for the reason in cells.rt.
pub fn read_off(
    last: u16,
    lefts: &[u16],
    rights: &[u16],
    stack: &mut [u16],
    low: usize,
    b_table: &mut [u16],
    a_table: &mut [u16],
    end: usize,
) -> Levels
    requires { TipsReady last lefts.now rights.now stack.old low b_table.old a_table.old end }
    ensures { TablesRead last lefts.now rights.now stack.old low
        b_table.old a_table.old end stack.new b_table.new
        a_table.new result.read result.height }
{
    let mut height = low;
    for i in 0..end {
        if height == 0 {
            zero_rest(b_table, i, end);
            zero_rest(a_table, i, end);
            return Levels { read: i, height };
        }
        let p = pop(stack, height);
        let l = descend(last, lefts, rights, stack, p.bush, p.height);
        b_table[i] = l.edges;
        a_table[i] = l.exponent;
        height = l.height;
    }
    Levels { read: end, height }
}
