// The answers of the command line: for a line, a word, a text or a record, a line of text at the front of a buffer. The
// program `thompsonf` reads, calls and writes.
#![tactic(auto)]

ghost use Rattle.std.specs.Prelude.{◌≡◌, replicate};
ghost use Rattle.commands.specs.Answers.{fitted};
ghost use Rattle.commands.specs.Records.{record_said};
ghost use Rattle.commands.specs.Promises.{Says};
ghost use Rattle.commands.specs.inside.Steps.{Replied};

use crate::saying::answer;
use refusals::{LIMIT, Refusal};

mod asking;
pub mod comparing;
pub mod digits;
pub mod reading;
mod replies;
pub mod saying;
pub mod sending;

// The entries of a table that serves every word and text.
pub const TABLE: usize = LIMIT + 1;

// Bytes that are room enough for a word, a text, a shape and a record within the limit.
pub const ROOM: usize = 9 * LIMIT;

// The bytes of the buffer of an answer.
pub const ANSWER: usize = ROOM + 64;

// The most bytes of a text that is read: those of the longest argument of a command line.
pub const TEXT: usize = 131071;

// The bytes of the text at the front of the buffer, and whether something was refused.
// No Result: what is said of a refusal is a text as well, so that Ok and Err would hold the same number.
#[derive(Clone, Copy)]
pub struct Answer {
    pub bytes: usize,
    pub refused: bool,
}

// What one word or text needs to become a record: two tables and a buffer that serve each, whatever they hold.
#[derive(Drop)]
pub struct Lent {
    pub b: [u16; TABLE],
    pub a: [u16; TABLE],
    pub record: [u8; ROOM],
}

impl Lent {
    // All of them cleared.
    pub fn new() -> Lent
        ensures tables { (result.b ≡ replicate TABLE 0) × (result.a ≡ replicate TABLE 0) }
        ensures buffer { result.«record» ≡ replicate ROOM 0 }
    {
        Lent {
            b: [0; TABLE],
            a: [0; TABLE],
            record: [0; ROOM],
        }
    }
}

// What a question about a record needs: two buffers for a word, a text or two shapes, whatever they hold.
#[derive(Drop)]
pub struct Rooms {
    pub first: [u8; ROOM],
    pub second: [u8; ROOM],
}

impl Rooms {
    // Both of them cleared.
    pub fn new() -> Rooms
        ensures { (result.first ≡ replicate ROOM 0) × (result.second ≡ replicate ROOM 0) }
    {
        Rooms {
            first: [0; ROOM],
            second: [0; ROOM],
        }
    }
}

// What is asked of a record.
#[derive(Clone, Copy, Debug, PartialEq, Eq)]
pub enum Question {
    Check,
    Word,
    Text,
    Length,
    LabelLength,
    Pair,
}

// The end of the line that answers a question about a record, or the record's refusal.
fn reply(
    question: Question,
    record: &[u8],
    rooms: &mut Rooms,
    out: &mut [u8; ANSWER],
) -> Result<usize, Refusal>
    ensures { Replied (record_said question «record».now) out.old out.new result }
{
    match question {
        Question::Check => asking::check(record, out),
        Question::Word => asking::spell(record, &mut rooms.first, out),
        Question::Text => asking::write(record, &mut rooms.first, out),
        Question::Length => asking::measure(record, out),
        Question::LabelLength => asking::measure_labels(record, out),
        Question::Pair => asking::pair(record, rooms, out),
    }
}

// The answer to a question about a record.
pub fn ask(question: Question, record: &[u8], rooms: &mut Rooms, out: &mut [u8; ANSWER]) -> Answer
    ensures { Says (fitted (record_said question «record».now)) out.new result }
{
    let line = reply(question, record, rooms, out);
    answer(line, out)
}
