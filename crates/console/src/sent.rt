// Words: their records, their items, and two of them compared, from arguments or from lines.
use crate::arguments::ARGUMENT;
use crate::drawn::{Style, draw_word};
use crate::inputs::{Line, answer_lines};
use crate::output::Failed;
use crate::{arguments, help, output};
use commands::digits::front;
use commands::{ANSWER, Answer, Lent, TEXT, comparing, sending};
use std::env::Env;
use std::io::Read;

// The bytes of a line that are kept: one more than those of the longest text that is read.
const LINE: usize = TEXT + 1;

// What is asked of a line of words.
#[derive(Clone, Copy)]
pub enum Kind {
    Record,
    List,
    Same,
    Draw(Style),
}

// A line of words, read so far, and what answers it; the second memory is for two words. Both are lent for many lines:
// to clear them takes longer than a short word. No Vec: memory is fixed.
#[derive(Drop)]
struct WordLine {
    kind: Kind,
    bytes: [u8; LINE],
    held: usize,
    first: Lent,
    second: Lent,
}

// The answer to a line.
fn answer_words(
    kind: Kind,
    line: &[u8],
    first: &mut Lent,
    second: &mut Lent,
    answer: &mut [u8; ANSWER],
) -> Result<Answer, Failed> {
    match kind {
        Kind::Record => Ok(sending::send(line, first, answer)),
        Kind::List => Ok(sending::list(line, first, answer)),
        Kind::Same => Ok(comparing::compare_line(line, first, second, answer)),
        Kind::Draw(style) => draw_word(style, line, first, answer),
    }
}

impl Line for WordLine {
    fn feed(&mut self, part: &[u8], from: usize) -> Option<usize> {
        let fed = lines::feed(part, from, &mut self.bytes, self.held);
        self.held = fed.held;
        if fed.ended { Some(fed.next) } else { None }
    }

    fn has_begun(&self) -> bool {
        self.held > 0
    }

    fn answer(&mut self, answer: &mut [u8; ANSWER]) -> Result<Answer, Failed> {
        let line = front(&self.bytes, self.held);
        self.held = 0;
        answer_words(self.kind, line, &mut self.first, &mut self.second, answer)
    }
}

// The lines of an input.
pub fn send_lines<R: Read>(input: &mut R, kind: Kind) -> u8 {
    let mut line = WordLine {
        kind,
        bytes: [0; LINE],
        held: 0,
        first: Lent::new(),
        second: Lent::new(),
    };
    answer_lines(input, &mut line)
}

// A word or a text in argument i.
fn send_argument<E: Env>(words: &E, kind: Kind, i: usize) -> u8 {
    let mut room = [0u8; ARGUMENT];
    let line = arguments::text(words, i, &mut room);
    let mut answer = [0u8; ANSWER];
    let said = answer_words(kind, line, &mut Lent::new(), &mut Lent::new(), &mut answer);
    output::write_answer(&answer, said)
}

// A word or a text in argument i, the last one, or lines where there is none.
pub fn run<R: Read, E: Env>(input: &mut R, words: &E, kind: Kind, i: usize) -> u8 {
    match arguments::count(words).checked_sub(i) {
        Some(0) => send_lines(input, kind),
        Some(1) => send_argument(words, kind, i),
        _ => help::wrong(),
    }
}

// Two words in two arguments.
pub fn compare_arguments<E: Env>(words: &E) -> u8 {
    let mut room1 = [0u8; ARGUMENT];
    let mut room2 = [0u8; ARGUMENT];
    let mut answer = [0u8; ANSWER];
    let said = comparing::compare(
        arguments::text(words, 2, &mut room1),
        arguments::text(words, 3, &mut room2),
        &mut Lent::new(),
        &mut Lent::new(),
        &mut answer,
    );
    output::write_answer(&answer, Ok(said))
}
