// Packed shapes, tried on the rows of standard input. A row has the name of a call, what the call is given and how much
// it is lent, and behind an arrow `ok` with what it answers and leaves, or `refused`, number and place. A row that is
// no example vector begins with `trap` and ends with a name behind a bar. Then come the largest shapes, which the
// program makes itself. Each row that fails is printed, then how many are right.
#![tactic(auto)]

use cases::counts::Counts;
use cases::parts;

mod bound;
mod calls;
mod rows;
mod values;

// The number of standard input.
const STDIN: i32 = 0;

// The most bytes of all rows.
const INPUT: usize = 163840;

// The bytes in front of the call's name in a trap.
const TRAP: usize = 5;

// What a line is.
#[derive(Clone, Copy, PartialEq, Eq)]
enum Kind {
    Heading,
    Vector,
    Trap,
}

impl Kind {
    // The kind of a line.
    fn of(line: &[u8]) -> Kind {
        match line {
            [b'#', ..] => Kind::Heading,
            [b't', ..] => Kind::Trap,
            _ => Kind::Vector,
        }
    }

    // The row of a line of this kind.
    fn row(self, line: &[u8]) -> &[u8] {
        match self {
            Kind::Trap => parts::behind(line, TRAP),
            _ => line,
        }
    }
}

// The rows of a kind, and how many of them are right.
fn lines(text: &[u8], kind: Kind) -> Counts {
    let mut c = Counts::default();
    for line in text.split_inclusive(|&x| x == b'\n') {
        if Kind::of(line) == kind {
            c = c.after(rows::right(kind.row(line)), line);
        }
    }
    c
}

// All rows, kind by kind, then the bound.
fn run(input: &mut [u8; INPUT]) {
    let n = io::read_full(STDIN, input);
    let text = parts::front(input, n);
    lines(text, Kind::Vector).print(b"vectors");
    lines(text, Kind::Trap).print(b"traps");
    let comb = bound::after(Counts::default(), bound::Kind::Comb);
    bound::after(comb, bound::Kind::Spine).print(b"at the bound");
}

fn main() {
    let mut input = [0u8; INPUT];
    run(&mut input);
}
