// The answers of the command line, tried on the lines of standard input. A line has a word of the command and, behind a
// blank, its argument; for `same` a line of two words, for `two` the same words apart. Each line is printed with the
// answer behind a colon; a line that begins with `#` is a heading. An answer may have more than one line.
#![tactic(auto)]

use cases::counts::print_text;
use cases::{fields, parts};

mod drawn;
mod record_lines;
mod word_lines;

// The number of standard input.
const STDIN: i32 = 0;

// The most bytes of all lines.
const INPUT: usize = 16384;

// A line with its answer; a heading has none.
fn print_case(line: &[u8]) {
    print_text(line);
    if line.starts_with(b"#") {
        print_text(b"\n");
        return;
    }
    print_text(b": ");
    let word = fields::field(line, 0);
    word_lines::print(word, parts::behind(line, word.len().wrapping_add(1)));
}

// The lines of a text; the ends of lines are left out.
fn run(text: &[u8]) {
    for line in text.split_inclusive(|&x| x == b'\n') {
        print_case(line.strip_suffix(b"\n").unwrap_or(line));
    }
}

fn main() {
    let mut input = [0u8; INPUT];
    let n = io::read_full(STDIN, &mut input);
    run(parts::front(&input, n));
}
