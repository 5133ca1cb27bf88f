// What the command can be asked: all its words, one of them, its version; and a wrong call.
use crate::output::{Failed, status, write};
use crate::texts::tell;
use crate::{arguments, topics};
use std::env::Env;

// The words that answer words, those that answer records, and how lines and records are read.
const PAGE: &[u8] = b"\
thompsonf record [WORD]           the record of a word, or of a text that begins with x
thompsonf same [WORD WORD]        same, inverse or different
thompsonf list [WORD]             the item of a word in a list: its record, or 0f0003, number, place
thompsonf receipts [FROM]         receipts of the lines of standard input, numbered from FROM
thompsonf check [RECORD]          accepted, or why not
thompsonf word [RECORD]           a word of the element, in letters a A b B
thompsonf text [RECORD]           its reduced form in subscript notation
thompsonf length [RECORD]         its length, the least number of letters of a word
thompsonf label-length [RECORD]   the same number by Table 1
thompsonf pair [RECORD]           the number of carets and the shapes of T- and T+
thompsonf draw [--text] [RECORD]         a picture of the tree pair: SVG, or characters
thompsonf draw [--text] --word [WORD]    the same of a word or a text
thompsonf help [WORD]             this page, or one word of it
thompsonf --version
Without an argument, lines of standard input are answered, a line each. Records are hexadecimal.
";

// A wrong call: the page on standard error, nothing on standard output.
pub fn wrong() -> u8 {
    tell(PAGE);
    status(Err(Failed))
}

// A text on standard output.
fn show(text: &[u8]) -> u8 {
    status(write(text).map(|()| false))
}

// One word of the page.
fn show_topic<E: Env>(words: &E) -> u8 {
    let mut room = [0u8; 16];
    match topics::page(arguments::text(words, 2, &mut room)) {
        Some(text) => show(text),
        None => wrong(),
    }
}

// Help, or no word of the command.
pub fn run<E: Env>(words: &E) -> u8 {
    let mut room = [0u8; 16];
    match (
        arguments::text(words, 1, &mut room),
        arguments::count(words),
    ) {
        (b"help", 3) => show_topic(words),
        (b"help" | b"--help", 2) => show(PAGE),
        (b"--version", 2) => show(b"thompsonf 0.7.0\n"),
        _ => wrong(),
    }
}
