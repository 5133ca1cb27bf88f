// An input in parts, whose lines are answered one by one.
use crate::output::{Failed, Output, status};
use crate::texts::tell;
use commands::{ANSWER, Answer};
use std::io::Read;

// The bytes that are read at once.
const PART: usize = 65536;

// What keeps the line that is read, as its bytes come, and answers it.
pub trait Line {
    // Takes the bytes of a part from a place on, up to the end of the line: the place behind it, or None where the part
    // ends first.
    fn feed(&mut self, part: &[u8], from: usize) -> Option<usize>;

    // Whether a line has begun that has no end yet.
    fn has_begun(&self) -> bool;

    // The answer to the line; then the next line begins.
    fn answer(&mut self, answer: &mut [u8; ANSWER]) -> Result<Answer, Failed>;
}

// The lines of a part. A line that ends has at least a byte, so that the turns suffice. Behind a failure the lines are
// answered all the same, since a picture is written and a refusal of one is said at once.
fn take_lines<L: Line>(line: &mut L, part: &[u8], out: &mut Output) -> Result<(), Failed> {
    let mut answer = [0u8; ANSWER];
    let mut kept = Ok(());
    let mut at = 0;
    for _ in 0..part.len() {
        let Some(next) = line.feed(part, at) else {
            return kept;
        };
        at = next;
        let said = line.answer(&mut answer);
        if kept.is_ok() {
            kept = out.keep(&answer, said);
        }
    }
    kept
}

// One part of the input: read, answered and written; whether there was one.
fn take_part<R: Read, L: Line>(
    input: &mut R,
    line: &mut L,
    out: &mut Output,
) -> Result<bool, Failed> {
    let mut part = [0u8; PART];
    let Ok(n) = input.read(&mut part) else {
        tell(b"thompsonf: the input cannot be read\n");
        return Err(Failed);
    };
    take_lines(line, &part[..n], out)?;
    out.flush()?;
    Ok(n > 0)
}

// All parts of the input. A proved loop has to end, and nothing says that an input does: the loop counts its turns up
// to a number that no run reaches.
fn take_all<R: Read, L: Line>(input: &mut R, line: &mut L, out: &mut Output) -> Result<(), Failed> {
    for _ in 0..u64::MAX {
        if !take_part(input, line, out)? {
            return Ok(());
        }
    }
    Ok(())
}

// The last line, which has no end.
fn take_last<L: Line>(line: &mut L, out: &mut Output) -> Result<(), Failed> {
    if line.has_begun() {
        let mut answer = [0u8; ANSWER];
        let said = line.answer(&mut answer);
        out.keep(&answer, said)?;
    }
    out.flush()
}

// The answers to all lines, written; whether something was refused.
fn answer_all<R: Read, L: Line>(input: &mut R, line: &mut L) -> Result<bool, Failed> {
    let mut out = Output::new();
    take_all(input, line, &mut out)?;
    take_last(line, &mut out)?;
    Ok(out.refused)
}

// The lines of an input, that of an unended last line with them: the status.
pub fn answer_lines<R: Read, L: Line>(input: &mut R, line: &mut L) -> u8 {
    status(answer_all(input, line))
}
