// Pictures: what is drawn goes to standard output at once, what is said in place of it to standard error. The answer of
// a line then has no bytes.
use crate::asked::Asked;
use crate::output::{Failed, write};
use crate::sent::Kind;
use crate::texts::tell;
use crate::{arguments, asked, sent};
use commands::digits::front;
use commands::{ANSWER, Answer, Lent, Question, Rooms, reading, sending};
use drawings::PICTURE;
use hexadecimal::Amid;
use std::env::Env;
use std::io::Read;

// How a picture is drawn: as an SVG text, or in characters.
#[derive(Clone, Copy, Debug, PartialEq, Eq)]
pub enum Style {
    Svg,
    Characters,
}

// The answer where something is said on standard error.
fn deny(answer: &[u8; ANSWER], a: Answer) -> Answer {
    tell(front(answer, a.bytes));
    Answer {
        bytes: 0,
        refused: true,
    }
}

// Writes a picture.
fn show(picture: &[u8]) -> Result<Answer, Failed> {
    write(picture)?;
    Ok(Answer {
        bytes: 0,
        refused: false,
    })
}

// The picture of a record.
fn draw_record(
    style: Style,
    record: &[u8],
    rooms: &mut Rooms,
    answer: &mut [u8; ANSWER],
) -> Result<Answer, Failed> {
    let mut picture = [0u8; PICTURE];
    let drawn = drawings::draw(
        style == Style::Characters,
        record,
        rooms,
        &mut picture,
        answer,
    );
    match drawn {
        Ok(n) => show(front(&picture, n)),
        Err(a) => Ok(deny(answer, a)),
    }
}

// The picture of a line in hexadecimal, behind its last character.
pub fn draw_read(
    style: Style,
    bytes: &[u8],
    amid: Amid,
    rooms: &mut Rooms,
    answer: &mut [u8; ANSWER],
) -> Result<Answer, Failed> {
    let a = reading::ask_read(Question::Check, bytes, amid, rooms, answer);
    if a.refused {
        return Ok(deny(answer, a));
    }
    draw_record(style, front(bytes, amid.held), rooms, answer)
}

// The picture of a word or a text. What is sent has a record, so that 0 stands for no count.
// Never inlined: its rooms would be taken on the stack for each line of words, with a picture or without.
#[inline(never)]
pub fn draw_word(
    style: Style,
    line: &[u8],
    lent: &mut Lent,
    answer: &mut [u8; ANSWER],
) -> Result<Answer, Failed> {
    let said = sending::send(line, lent, answer);
    if said.refused {
        return Ok(deny(answer, said));
    }
    let n = sending::find_record(line, lent).unwrap_or(0);
    draw_record(style, front(&lent.record, n), &mut Rooms::new(), answer)
}

// The word `draw` of the command.
pub fn run<R: Read, E: Env>(input: &mut R, words: &E) -> u8 {
    let (style, i) = if arguments::is(words, 2, b"--text") {
        (Style::Characters, 3)
    } else {
        (Style::Svg, 2)
    };
    if arguments::is(words, i, b"--word") {
        return sent::run(input, words, Kind::Draw(style), i + 1);
    }
    asked::run(input, words, Asked::Picture(style), i)
}
