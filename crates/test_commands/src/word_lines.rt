// Words, alone and two of them.
use crate::record_lines::print_said;
use crate::{drawn, record_lines};
use cases::fields::field;
use commands::{Lent, comparing, sending};

// The record of a word or a text.
fn print_record(line: &[u8]) {
    let mut lent = Lent::new();
    print_said(|out| sending::send(line, &mut lent, out));
}

// The item of a word.
fn print_item(line: &[u8]) {
    let mut lent = Lent::new();
    print_said(|out| sending::list(line, &mut lent, out));
}

// Two words on a line.
fn print_line(line: &[u8]) {
    let mut first = Lent::new();
    let mut second = Lent::new();
    print_said(|out| comparing::compare_line(line, &mut first, &mut second, out));
}

// Two words apart.
fn print_two(word1: &[u8], word2: &[u8]) {
    let mut first = Lent::new();
    let mut second = Lent::new();
    print_said(|out| comparing::compare(word1, word2, &mut first, &mut second, out));
}

// The answer of a word of the command to its argument.
pub fn print(word: &[u8], argument: &[u8]) {
    match word {
        b"record" => print_record(argument),
        b"list" => print_item(argument),
        b"same" => print_line(argument),
        b"two" => print_two(field(argument, 0), field(argument, 1)),
        b"draw" => drawn::print(false, argument),
        b"draw-text" => drawn::print(true, argument),
        _ => record_lines::print(word, argument),
    }
}
