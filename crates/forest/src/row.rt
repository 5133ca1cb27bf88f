// The row of bushes of a word, moved by one letter in constant time.
ghost use Rattle.forest.specs.inside.Moves.{join_letter, part_letter, step_letter, Ready, Moved, Scratch, Piled};

use crate::cells::{join, part, pop, push};

// The row: its first two bushes, and the height of the stack, which has the others. `used` is the next cell.
#[derive(Drop)]
pub struct State {
    pub used: usize,
    pub height: usize,
    pub first: u16,
    pub second: u16,
}

// The letter a: the first two bushes under one fork. The letter b: the second and the third.
fn joined(
    byte: u8,
    last: u16,
    s: State,
    lefts: &mut [u16],
    rights: &mut [u16],
    stack: &[u16],
) -> State
    requires { Ready last lefts.old rights.old stack.now s }
    ensures { Moved last (join_letter byte) lefts.old rights.old stack.now s
        lefts.new rights.new stack.now result }
{
    if byte == b'a' {
        let j = join(last, lefts, rights, s.used, s.first, s.second);
        let p = pop(stack, s.height);
        return State {
            used: j.used,
            height: p.height,
            first: j.bush,
            second: p.bush,
        };
    }
    let p = pop(stack, s.height);
    let j = join(last, lefts, rights, s.used, s.second, p.bush);
    State {
        used: j.used,
        height: p.height,
        first: s.first,
        second: j.bush,
    }
}

// The letter A: the first bush parts. The letter B: the second.
fn parted(byte: u8, last: u16, s: State, lefts: &[u16], rights: &[u16], stack: &mut [u16]) -> State
    requires { Ready last lefts.now rights.now stack.old s }
    ensures { Moved last (part_letter byte) lefts.now rights.now stack.old s
        lefts.now rights.now stack.new result }
{
    if byte == b'A' {
        let height = push(stack, s.height, s.second);
        let p = part(last, lefts, rights, s.first);
        return State {
            used: s.used,
            height,
            first: p.left,
            second: p.right,
        };
    }
    let p = part(last, lefts, rights, s.second);
    let height = push(stack, s.height, p.right);
    State {
        used: s.used,
        height,
        first: s.first,
        second: p.left,
    }
}

// One letter, in constant time. An arm for each letter: one of both together is a test of a range in front of that of
// the letter, which a word of one letter feels.
fn step(
    byte: u8,
    last: u16,
    s: State,
    lefts: &mut [u16],
    rights: &mut [u16],
    stack: &mut [u16],
) -> State
    requires { Ready last lefts.old rights.old stack.old s }
    ensures { Moved last (step_letter byte) lefts.old rights.old stack.old s
        lefts.new rights.new stack.new result }
{
    match byte {
        b'a' => joined(byte, last, s, lefts, rights, stack),
        b'b' => joined(byte, last, s, lefts, rights, stack),
        _ => parted(byte, last, s, lefts, rights, stack),
    }
}

// The row of a word, read from its right end; all its bushes go onto the stack. The height of the stack.
pub fn run(
    word: &[u8],
    last: u16,
    lefts: &mut [u16],
    rights: &mut [u16],
    stack: &mut [u16],
) -> usize
    requires { Scratch last word.now lefts.old rights.old stack.old }
    ensures { Piled last word.now lefts.new rights.new stack.new result }
{
    let mut s = State {
        used: last as usize + 1,
        height: 0,
        first: 0,
        second: 0,
    };
    for &byte in word.iter().rev() {
        s = step(byte, last, s, lefts, rights, stack);
    }
    let low = push(stack, s.height, s.second);
    push(stack, low, s.first)
}
