// A row of bushes with a cursor, for powers of any generator. The bushes in front of the cursor stand on `before`, the
// nearest on top, so that its height is the cursor's place; the bushes from the cursor on stand on `stack`.
ghost use Rattle.std.specs.Prelude.{◌+◌, ◌≤◌, ◌<◌, length};
ghost use Rattle.group.specs.inside.PowerLists.{side_of};
ghost use Rattle.forest.specs.inside.Seeking.{Seekable, Sought, MovedOn, Skipped, Storing};
ghost use Rattle.forest.specs.inside.Seeking.{TurnReady, Turned, PowerRoom, PowerPut};
ghost use Rattle.forest.specs.inside.Seeking.{PowersReady, PowersPiled};

use crate::cells::{LAST_TIP, join, part, pop, push};
use crate::leaves::zero_rest;
use refusals::LIMIT;

// The cursor moved on to place `end`, no further than the bushes of `stack` reach. The height of `stack` that is left:
// it is the answer too, so it is counted beside the place.
fn move_on(before: &mut [u16], stack: &[u16], front: usize, height: usize, end: usize) -> usize
    requires { (front ≤ end) × (end ≤ front + height) × (end ≤ length before.old)
        × (height ≤ length stack.now) }
    ensures { MovedOn before.old stack.now front height end before.new result }
{
    let mut h = height;
    for i in front..end {
        h -= 1;
        before[i] = stack[h];
    }
    h
}

// The cursor moved on to place k; behind the last bush stand tips of exponent 0. The height of `stack` that is left.
fn go_on(before: &mut [u16], stack: &[u16], front: usize, height: usize, k: usize) -> usize
    requires { Seekable before.old stack.now front height k × (front ≤ k) }
    ensures { Sought before.old stack.now front height k before.new
        stack.now result }
{
    let end = front + height.min(k - front);
    let left = move_on(before, stack, front, height, end);
    zero_rest(before, end, k);
    left
}

// The place, k or behind it, that the cursor is moved back to with nothing stored: with no bush behind them, tips of
// exponent 0 are not.
fn skip_zeros(before: &[u16], front: usize, height: usize, k: usize) -> usize
    requires { (k ≤ front) × (front ≤ length before.now) }
    ensures { Skipped before.now front height k result }
{
    if height != 0 {
        return front;
    }
    for i in (k..front).rev() {
        if before[i] != 0 {
            return i + 1;
        }
    }
    k
}

// The cursor moved back to place k, each bush stored. The height of `stack` that is reached: it is the answer too.
fn move_back(before: &[u16], stack: &mut [u16], front: usize, height: usize, k: usize) -> usize
    requires { (k ≤ front) × (front ≤ length before.now) × (front + height < length stack.old)
        × Storing before.now front height k }
    ensures { Sought before.now stack.old front height k before.now
        stack.new result }
{
    let mut h = height;
    for i in (k..front).rev() {
        stack[h] = before[i];
        h += 1;
    }
    h
}

// The cursor moved back to place k. The height of `stack` that is reached.
fn go_back(before: &[u16], stack: &mut [u16], front: usize, height: usize, k: usize) -> usize
    requires { Seekable before.now stack.old front height k × (k ≤ front) }
    ensures { Sought before.now stack.old front height k before.now
        stack.new result }
{
    let i = skip_zeros(before, front, height, k);
    move_back(before, stack, i, height, k)
}

// The cursor moved to place k. The height of `stack` that is reached.
fn seek(before: &mut [u16], stack: &mut [u16], front: usize, height: usize, k: usize) -> usize
    requires { Seekable before.old stack.old front height k }
    ensures { Sought before.old stack.old front height k before.new
        stack.new result }
{
    if front <= k {
        return go_on(before, stack, front, height, k);
    }
    go_back(before, stack, front, height, k)
}

// The bush at the cursor, taken from the stack while a power turns it, the height of `stack`, which has the bushes
// behind it, and the next cell.
#[derive(Drop)]
pub struct Hand {
    pub used: usize,
    pub height: usize,
    pub bush: u16,
}

// One turn, k the cursor's place. Where the side is 0, x_k: a fork over the bush, with the next bush of the row as its
// right part. Else x_k⁻¹: the bush parted, and its left part taken. The side is a number, as `fill_powers` promises.
fn turn(side: u8, lefts: &mut [u16], rights: &mut [u16], stack: &mut [u16], hand: Hand) -> Hand
    requires { TurnReady lefts.old rights.old stack.old hand }
    ensures { Turned (side_of side) lefts.old rights.old stack.old hand
        lefts.new rights.new stack.new result }
{
    if side == 0 {
        let p = pop(stack, hand.height);
        let j = join(LAST_TIP, lefts, rights, hand.used, hand.bush, p.bush);
        return Hand {
            used: j.used,
            height: p.height,
            bush: j.bush,
        };
    }
    let p = part(LAST_TIP, lefts, rights, hand.bush);
    let height = push(stack, hand.height, p.right);
    Hand {
        used: hand.used,
        height,
        bush: p.left,
    }
}

// Behind a power: the next cell, and the height of `stack`.
#[derive(Drop)]
pub struct Behind {
    pub used: usize,
    pub height: usize,
}

// x_k^e where the side is 0, else x_k^−e; k is the cursor's place. The slices go apart, for the reason in cells.rt.
fn power(
    side: u8,
    lefts: &mut [u16],
    rights: &mut [u16],
    stack: &mut [u16],
    used: usize,
    height: usize,
    e: u16,
) -> Behind
    requires { PowerRoom (side_of side) lefts.old rights.old stack.old used height e }
    ensures { PowerPut (side_of side) lefts.old rights.old stack.old used height
        e lefts.new rights.new stack.new result.used result.height }
{
    let p = pop(stack, height);
    let mut hand = Hand {
        used,
        height: p.height,
        bush: p.bush,
    };
    for _ in 0..e {
        hand = turn(side, lefts, rights, stack, hand);
    }
    let top = push(stack, hand.height, hand.bush);
    Behind {
        used: hand.used,
        height: top,
    }
}

// The row of the powers that three slices of one length hold, from the last to the first; all its bushes go onto the
// stack. The height of the stack. The slices are those of `fill_powers`, whose contract (`FilledPowers`) names them.
pub fn pile_powers(
    indices: &[u16],
    exponents: &[u16],
    sides: &[u8],
    lefts: &mut [u16],
    rights: &mut [u16],
    before: &mut [u16],
    stack: &mut [u16],
) -> usize
    requires { PowersReady indices.now exponents.now sides.now lefts.old rights.old before.old
        stack.old }
    ensures { PowersPiled indices.now exponents.now sides.now
        lefts.new rights.new stack.new result }
{
    let mut used = LIMIT + 1;
    let mut front = 0;
    let mut height = 0;
    for i in (0..indices.len()).rev() {
        let k = indices[i] as usize;
        let low = seek(before, stack, front, height, k);
        let b = power(sides[i], lefts, rights, stack, used, low, exponents[i]);
        used = b.used;
        front = k;
        height = b.height;
    }
    go_back(before, stack, front, height, 0)
}
