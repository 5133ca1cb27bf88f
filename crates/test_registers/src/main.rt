// The register, tried: the cases of standard input, and a run of filings. A case has the word, the sizes of the tables
// and of the record buffer, the holder and the register, and behind an arrow the answer, the record and the register as
// they must be then: `file` is a seeded case, `trap` one with a name behind a bar. `long`, `odd` and `run` have other
// forms. Each case that fails is printed, then how many are right.
#![tactic(auto)]

use cases::counts::Counts;
use cases::parts;

mod answers;
mod calling;
mod entering;
mod filing;
mod history;
mod kept;
mod longest;
mod odd;
mod sides;

// The number of standard input.
const STDIN: i32 = 0;

// The most bytes of all cases.
const INPUT: usize = 131072;

// The kinds of cases.
#[derive(Clone, Copy)]
enum Kind {
    Vector,
    Trap,
    Long,
    Odd,
}

impl Kind {
    // Whether the case of a line is one of the kind.
    fn has(self, line: &[u8]) -> bool {
        line.starts_with(match self {
            Kind::Vector => b"f",
            Kind::Trap => b"t",
            Kind::Long => b"l",
            Kind::Odd => b"o",
        })
    }

    // Whether a case of the kind is right.
    fn is_right(self, line: &[u8]) -> bool {
        match self {
            Kind::Vector | Kind::Trap => entering::is_right(line),
            Kind::Long => longest::is_right(line),
            Kind::Odd => odd::is_right(line),
        }
    }
}

// The cases of a kind, and how many of them are right.
fn lines(text: &[u8], kind: Kind) -> Counts {
    let mut c = Counts::default();
    for line in text.split_inclusive(|&x| x == b'\n') {
        if kind.has(line) {
            c = c.after(kind.is_right(line), line);
        }
    }
    c
}

// All cases, kind by kind.
fn run(input: &mut [u8; INPUT]) {
    let n = io::read_full(STDIN, input);
    let text = parts::front(input, n);
    lines(text, Kind::Vector).print(b"vectors");
    lines(text, Kind::Trap).print(b"traps");
    lines(text, Kind::Long).print(b"long registers");
    lines(text, Kind::Odd).print(b"odd bytes");
    history::filings(text).print(b"filings and the end");
}

fn main() {
    let mut input = [0u8; INPUT];
    run(&mut input);
}
