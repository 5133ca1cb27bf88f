// The command `thompsonf`: it reads arguments and an input, calls and writes; the crate `commands` has the answers. It
// answers a status: 0 where all was accepted, 1 where something was refused, 2 for a wrong call, or where the input
// cannot be read or the output cannot be written.
#![tactic(auto)]

use crate::asked::Asked;
use crate::sent::Kind;
use commands::Question;
use std::env::Env;
use std::io::Read;

mod arguments;
mod asked;
mod drawn;
mod help;
mod inputs;
mod output;
mod sent;
mod texts;
mod topics;

// Two words, from two arguments or from lines.
fn compare<R: Read, E: Env>(input: &mut R, words: &E) -> u8 {
    match arguments::count(words) {
        2 => sent::send_lines(input, Kind::Same),
        4 => sent::compare_arguments(words),
        _ => help::wrong(),
    }
}

// The number of the first receipt: 1, or an argument.
fn first_receipt<E: Env>(words: &E) -> Option<u64> {
    match arguments::count(words) {
        2 => Some(1),
        3 => arguments::number(words, 2),
        _ => None,
    }
}

// Receipts.
fn receive<R: Read, E: Env>(input: &mut R, words: &E) -> u8 {
    match first_receipt(words) {
        Some(from) => receiving::run(input, from),
        None => help::wrong(),
    }
}

// A question about a record.
fn ask<R: Read, E: Env>(input: &mut R, words: &E, question: Question) -> u8 {
    asked::run(input, words, Asked::Question(question), 2)
}

// The command of the arguments, on an input.
pub fn run<R: Read, E: Env>(input: &mut R, words: &E) -> u8 {
    let mut room = [0u8; 16];
    match arguments::text(words, 1, &mut room) {
        b"record" => sent::run(input, words, Kind::Record, 2),
        b"list" => sent::run(input, words, Kind::List, 2),
        b"same" => compare(input, words),
        b"receipts" => receive(input, words),
        b"draw" => drawn::run(input, words),
        b"check" => ask(input, words, Question::Check),
        b"word" => ask(input, words, Question::Word),
        b"text" => ask(input, words, Question::Text),
        b"length" => ask(input, words, Question::Length),
        b"label-length" => ask(input, words, Question::LabelLength),
        b"pair" => ask(input, words, Question::Pair),
        _ => help::run(words),
    }
}

// The command: its status.
pub fn thompsonf_status<R: Read, E: Env>(input: &mut R, words: &E) -> u8 {
    run(input, words)
}
