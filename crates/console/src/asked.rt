// Questions about records in hexadecimal, and their pictures, from an argument or from lines.
use crate::arguments::ARGUMENT;
use crate::drawn::{Style, draw_read};
use crate::inputs::{Line, answer_lines};
use crate::output::Failed;
use crate::{arguments, help, output};
use commands::{ANSWER, Answer, Question, Rooms, reading};
use hexadecimal::Amid;
use std::env::Env;
use std::io::Read;

// The bytes of a record that are kept: one more than two fields can be.
const BYTES: usize = 2 * (3 + 65535) + 1;

// What is asked of a record: the answer to a question, or its picture.
#[derive(Clone, Copy)]
pub enum Asked {
    Question(Question),
    Picture(Style),
}

// A line in hexadecimal, read so far, and what answers it.
#[derive(Drop)]
struct RecordLine {
    asked: Asked,
    bytes: [u8; BYTES],
    amid: Amid,
    rooms: Rooms,
}

// The answer to the characters of a record. Inlined, as it does no work of its own for a line.
#[inline(always)]
fn answer_record(
    asked: Asked,
    bytes: &[u8],
    amid: Amid,
    rooms: &mut Rooms,
    answer: &mut [u8; ANSWER],
) -> Result<Answer, Failed> {
    match asked {
        Asked::Question(question) => Ok(reading::ask_read(question, bytes, amid, rooms, answer)),
        Asked::Picture(style) => draw_read(style, bytes, amid, rooms, answer),
    }
}

impl Line for RecordLine {
    fn feed(&mut self, part: &[u8], from: usize) -> Option<usize> {
        let end = lines::line_end(part, from);
        let chars = part.get(from..end).unwrap_or(&[]);
        self.amid = hexadecimal::read(chars, &mut self.bytes, self.amid);
        if end < part.len() {
            Some(end + 1)
        } else {
            None
        }
    }

    fn has_begun(&self) -> bool {
        self.amid.stray || self.amid.offset > 0
    }

    fn answer(&mut self, answer: &mut [u8; ANSWER]) -> Result<Answer, Failed> {
        let amid = self.amid;
        self.amid = hexadecimal::begin();
        answer_record(self.asked, &self.bytes, amid, &mut self.rooms, answer)
    }
}

// The lines of an input.
fn ask_lines<R: Read>(input: &mut R, asked: Asked) -> u8 {
    let mut line = RecordLine {
        asked,
        bytes: [0; BYTES],
        amid: hexadecimal::begin(),
        rooms: Rooms::new(),
    };
    answer_lines(input, &mut line)
}

// A record in argument i.
fn ask_argument<E: Env>(words: &E, asked: Asked, i: usize) -> u8 {
    let mut room = [0u8; ARGUMENT];
    let mut bytes = [0u8; BYTES];
    let chars = arguments::text(words, i, &mut room);
    let amid = hexadecimal::read(chars, &mut bytes, hexadecimal::begin());
    let mut answer = [0u8; ANSWER];
    let said = answer_record(asked, &bytes, amid, &mut Rooms::new(), &mut answer);
    output::write_answer(&answer, said)
}

// A record in argument i, the last one, or lines where there is none.
pub fn run<R: Read, E: Env>(input: &mut R, words: &E, asked: Asked, i: usize) -> u8 {
    match arguments::count(words).checked_sub(i) {
        Some(0) => ask_lines(input, asked),
        Some(1) => ask_argument(words, asked, i),
        _ => help::wrong(),
    }
}
