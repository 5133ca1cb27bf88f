// Bushes kept in cells, and the stack of bushes. A bush is a code: up to `last` a tip with that exponent, above it a
// cell that holds the codes of its two parts, the left one in `lefts`, the right one in `rights`. A cell is written
// once. For a word `last` is its number of letters, so that a short word touches short scratch; for powers it is the
// limit.
// Kept codes in two slices: no heap is allowed, and `fill_tables`, which is lent the slices, is named in the README.
// Kept apart: in a struct of both each contract would add what a `&mut` parameter keeps by itself, its name and length.
ghost use Rattle.std.specs.Prelude.{◌≡◌, ◌≤◌, ◌<◌, length};
ghost use Rattle.group.specs.Limits.{limit};
ghost use Rattle.forest.specs.inside.Filling.{cells_for};
ghost use Rattle.forest.specs.inside.Cells.{Popped, Pushed, Parted, Made};

use refusals::LIMIT;

// The last code of a tip, for powers.
pub const LAST_TIP: u16 = LIMIT as u16;

// A bush taken from the stack, and the height that is left.
#[derive(Drop)]
pub struct Top {
    pub bush: u16,
    pub height: usize,
}

// The two parts of a bush.
#[derive(Drop)]
pub struct Parts {
    pub left: u16,
    pub right: u16,
}

// A bush that was made, and the next cell.
#[derive(Drop)]
pub struct Cell {
    pub bush: u16,
    pub used: usize,
}

// The bush on top of the stack; behind the row stand tips of exponent 0.
pub fn pop(stack: &[u16], height: usize) -> Top
    requires { height ≤ length stack.now }
    ensures { Popped stack.now height result.bush result.height }
{
    if height == 0 {
        return Top { bush: 0, height: 0 };
    }
    let top = height - 1;
    Top {
        bush: stack[top],
        height: top,
    }
}

// A bush put onto the stack; at its bottom no tip of exponent 0 is stored.
pub fn push(stack: &mut [u16], height: usize, bush: u16) -> usize
    requires { height < length stack.old }
    ensures { Pushed stack.old height bush stack.new result }
{
    if height == 0 && bush == 0 {
        return 0;
    }
    stack[height] = bush;
    height + 1
}

// The two parts of a bush.
pub fn part(last: u16, lefts: &[u16], rights: &[u16], bush: u16) -> Parts
    requires { (last ≤ limit) × (bush < length lefts.now) × (bush < length rights.now) }
    ensures { Parted last lefts.now rights.now bush result.left result.right }
{
    if bush <= last {
        return Parts {
            left: bush + 1,
            right: 0,
        };
    }
    let k = bush as usize;
    Parts {
        left: lefts[k],
        right: rights[k],
    }
}

// Two bushes under one fork: a tip where the fork is taken away, else a new cell.
pub fn join(
    last: u16,
    lefts: &mut [u16],
    rights: &mut [u16],
    used: usize,
    left: u16,
    right: u16,
) -> Cell
    requires { (last ≤ limit) × (last < used) × (used < cells_for last) × (cells_for last ≤ length lefts.old)
        × (cells_for last ≤ length rights.old) }
    ensures { Made last lefts.old rights.old used left right lefts.new
        rights.new result.used result.bush }
{
    if right == 0 && 0 < left && left <= last {
        return Cell {
            bush: left - 1,
            used,
        };
    }
    lefts[used] = left;
    rights[used] = right;
    Cell {
        bush: used as u16,
        used: used + 1,
    }
}
