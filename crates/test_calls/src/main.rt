// The calls, run on the cases of standard input. A line has the name of the call in eight columns, the bytes that it is
// given, how much of two tables and of a buffer it is lent, the same of a second word, and behind a bar a name; what a
// call does not use may be left out. Each line is printed, and below it the answer; a heading, `# ..`, has none. The
// file `stdout` has what is expected.
#![tactic(auto)]

use crate::memory::Call;
use crate::reading::{Given, Row};
use cases::{counts, parts};

mod both;
mod memory;
mod printed;
mod reading;
mod runs;
mod spheres;
mod tables;

// The number of standard input.
const STDIN: i32 = 0;

// The bytes of a line in which the name of the call stands.
const NAME: usize = 8;

// The most bytes of all cases.
const INPUT: usize = 2097152;

// The most bytes that a case gives to a call.
const GIVEN: usize = 200000;

// The most bytes of a second word.
const OTHER: usize = 4200;

// The fields of a line, and the answer; none to a heading.
fn answer(line: &[u8]) {
    let mut first = [0u8; GIVEN];
    let mut second = [0u8; OTHER];
    let mut row = Row::behind(line, NAME);
    let given = Given::read(&mut row, &mut first);
    let other = Given::read(&mut row, &mut second);
    match line {
        [b'#', ..] => {}
        [b'g', ..] => spheres::print(),
        [b'l', ..] => both::lengths(given.bytes),
        [b'm', ..] => tables::measure(given),
        [b'r', ..] => runs::receipts(given, other.bytes.len()),
        _ => memory::lend(Call::of(line), given, other),
    }
}

// All lines, each with its answer.
fn run(input: &mut [u8; INPUT]) {
    let n = io::read_full(STDIN, input);
    for line in parts::front(input, n).split_inclusive(|&x| x == b'\n') {
        counts::print_text(line);
        answer(line);
        counts::print_text(b"\n");
    }
}

fn main() {
    let mut input = [0u8; INPUT];
    run(&mut input);
}
