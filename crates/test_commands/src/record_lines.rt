// Questions about records in hexadecimal.
use cases::counts::print_text;
use cases::parts;
use commands::{ANSWER, Answer, Question, Rooms, reading};

// The most bytes of a record.
pub const RECORD: usize = 256;

// The question of a word.
fn question(word: &[u8]) -> Question {
    match word {
        b"check" => Question::Check,
        b"word" => Question::Word,
        b"text" => Question::Text,
        b"length" => Question::Length,
        b"label-length" => Question::LabelLength,
        _ => Question::Pair,
    }
}

// The text of an answer.
pub fn text(out: &[u8; ANSWER], answer: Answer) -> &[u8] {
    parts::front(out, answer.bytes)
}

// What a call says at the front of a buffer.
pub fn print_said<F: FnOnce(&mut [u8; ANSWER]) -> Answer>(call: F)
    requires { F.IsAlwaysCallable call }
{
    let mut out = [0u8; ANSWER];
    let answer = call(&mut out);
    print_text(text(&out, answer));
}

// The answer to a question about a record, where it is not what was said of its hexadecimal.
fn print_other(question: Question, record: &[u8], said: &[u8]) {
    let mut rooms = Rooms::new();
    let mut out = [0u8; ANSWER];
    let answer = commands::ask(question, record, &mut rooms, &mut out);
    if text(&out, answer) != said {
        print_text(b"of its bytes: ");
        print_text(text(&out, answer));
    }
}

// The answer to a question about a record; it has to be that of its bytes, where there are any.
pub fn print(word: &[u8], chars: &[u8]) {
    let mut bytes = [0u8; RECORD];
    let amid = hexadecimal::read(chars, &mut bytes, hexadecimal::begin());
    let mut rooms = Rooms::new();
    let mut out = [0u8; ANSWER];
    let answer = reading::ask_read(question(word), &bytes, amid, &mut rooms, &mut out);
    let said = text(&out, answer);
    print_text(said);
    if !amid.stray && amid.high.is_none() {
        print_other(question(word), parts::front(&bytes, amid.held), said);
    }
}
