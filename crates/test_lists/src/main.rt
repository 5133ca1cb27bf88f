// Lists of words, tried on the rows of standard input. A row has the bytes of a list, the sizes of the tables and of
// the output that are lent, and behind an arrow `ok`, the bytes and both tables, or `refused`, number and place: `list`
// is an example vector, `trap` a row with a name behind a bar. Accepted lists are also done word by word. Each row that
// fails is printed, then how many are right.
#![tactic(auto)]

use cases::counts::Counts;
use cases::{fields, parts};

mod by_word;
mod memory;
mod rows;

// The number of standard input.
const STDIN: i32 = 0;

// The most bytes of all rows, and of a list.
const INPUT: usize = 524288;

const LIST: usize = 12400;

// What is tried: the example vectors, the traps, or each accepted list beside one call a word.
#[derive(Clone, Copy)]
enum Kind {
    Vector,
    Trap,
    EachWord,
}

impl Kind {
    // Whether a row is one of the kind.
    fn has(self, line: &[u8]) -> bool {
        match self {
            Kind::Vector => line.starts_with(b"l"),
            Kind::Trap => line.starts_with(b"t"),
            Kind::EachWord => rows::is_accepted(line),
        }
    }

    // Whether a row of the kind is right.
    fn is_right(self, line: &[u8]) -> bool {
        let mut bytes = [0u8; LIST];
        let n = fields::bytes(fields::field(line, 1), &mut bytes);
        let list = parts::front(&bytes, n);
        match self {
            Kind::Vector | Kind::Trap => rows::is_as_told(line, list),
            Kind::EachWord => rows::is_as_each_word(line, list),
        }
    }
}

// The rows of a kind, and how many of them are right.
fn lines(text: &[u8], kind: Kind) -> Counts {
    let mut c = Counts::default();
    for line in text.split_inclusive(|&x| x == b'\n') {
        if kind.has(line) {
            c = c.after(kind.is_right(line), line);
        }
    }
    c
}

// All rows, kind by kind.
fn run(input: &mut [u8; INPUT]) {
    let n = io::read_full(STDIN, input);
    let text = parts::front(input, n);
    lines(text, Kind::Vector).print(b"vectors");
    lines(text, Kind::Trap).print(b"traps");
    lines(text, Kind::EachWord).print(b"lists word by word");
}

fn main() {
    let mut input = [0u8; INPUT];
    run(&mut input);
}
