// The lines of an input, entered into a register in memory, part by part.
use crate::answers::{ANSWER, OUTPUT};
use crate::files::ROOM;
use crate::text::STDOUT;
use crate::{answers, parts, text};
use records::BASE_SIZE;
use refusals::{LIMIT, Refusal};
use std::io::Read;
use updates::Entered;

// The bytes of the input that are read at once.
const PART: usize = 2048;

// Where more bytes of answers are held than these, those to another part may not fit.
const MOST_HELD: usize = OUTPUT - ANSWER * (PART + 1);

// The bytes of a line that are kept: one more than a word has letters.
pub const LINE: usize = LIMIT + 1;

// The holder for whom words are entered, and the bytes of the register at the front of the room that is lent.
#[derive(Clone, Copy)]
pub struct Target {
    pub holder: u16,
    pub size: usize,
}

// Behind a part of the input: whether an entry is new (a flag: it stands whatever the rest is), the number of the line
// that has begun and how many of its bytes are held, and how many bytes of answers are held. The buffers are apart: the
// line's goes to `lines`, the answers' to `printing`, as bytes with a place.
#[derive(Clone, Copy)]
pub struct Turn {
    pub fresh: bool,
    pub number: u64,
    pub held: usize,
    pub used: usize,
}

// The input cannot be read or the answers cannot be written: it was said.
#[derive(Clone, Copy)]
pub struct Failed;

// A word, in memory that suffices for every word.
fn enter_word(word: &[u8], holder: u16, register: &mut [u8]) -> Result<Entered, Refusal> {
    let mut b_table = [0u16; LIMIT + 1];
    let mut a_table = [0u16; LIMIT + 1];
    let mut record = [0u8; BASE_SIZE + 4 * LIMIT];
    updates::enter_word(
        word,
        &mut b_table,
        &mut a_table,
        &mut record,
        holder,
        register,
    )
}

// A line that has ended.
fn take_line(
    line: &[u8; LINE],
    target: Target,
    room: &mut [u8; ROOM],
    out: &mut [u8; OUTPUT],
    t: Turn,
) -> Turn {
    let size = target.size.min(ROOM);
    let entered = enter_word(parts::front(line, t.held), target.holder, &mut room[..size]);
    Turn {
        fresh: t.fresh | matches!(entered, Ok(Entered::New(_, _))),
        number: t.number.wrapping_add(1),
        held: 0,
        used: answers::put(t.number, entered, out, t.used),
    }
}

// The lines of a part, as many turns as bytes at most: where the next begins, each line says.
fn take_lines(
    part: &[u8],
    line: &mut [u8; LINE],
    target: Target,
    room: &mut [u8; ROOM],
    out: &mut [u8; OUTPUT],
    turn: Turn,
) -> Turn {
    let mut t = turn;
    let mut at = 0;
    for _ in 0..part.len() {
        if at >= part.len() {
            return t;
        }
        let fed = lines::feed(part, at, line, t.held);
        at = fed.next;
        t.held = fed.held;
        if fed.ended {
            t = take_line(line, target, room, out, t);
        }
    }
    t
}

// Writes the answers that are held, where those to another part may not fit.
fn spill(out: &[u8; OUTPUT], t: Turn) -> Result<Turn, Failed> {
    if t.used <= MOST_HELD {
        return Ok(t);
    }
    if !io::write_all(STDOUT, parts::front(out, t.used)) {
        text::confirm(false);
        return Err(Failed);
    }
    Ok(Turn { used: 0, ..t })
}

// One part of the input, read; none at its end.
fn read<R: Read>(input: &mut R, part: &mut [u8; PART]) -> Result<usize, Failed> {
    let Ok(n) = input.read(part) else {
        text::tell(b"register: the input cannot be read\n");
        return Err(Failed);
    };
    Ok(n)
}

// All parts of the input, from line 1. A proved loop has to end, and nothing says that an input does: the loop counts
// turns, to a number that no run uses up.
fn take_parts<R: Read>(
    input: &mut R,
    line: &mut [u8; LINE],
    target: Target,
    room: &mut [u8; ROOM],
    out: &mut [u8; OUTPUT],
) -> Result<Turn, Failed> {
    let mut part = [0u8; PART];
    let mut t = Turn {
        fresh: false,
        number: 1,
        held: 0,
        used: 0,
    };
    for _ in 0..u64::MAX {
        let n = read(input, &mut part)?;
        if n == 0 {
            break;
        }
        let taken = take_lines(parts::front(&part, n), line, target, room, out, t);
        t = spill(out, taken)?;
    }
    Ok(t)
}

// All parts of the input, and a line that has no end.
pub fn take_all<R: Read>(
    input: &mut R,
    target: Target,
    room: &mut [u8; ROOM],
    out: &mut [u8; OUTPUT],
) -> Result<Turn, Failed> {
    let mut line = [0u8; LINE];
    let t = take_parts(input, &mut line, target, room, out)?;
    if t.held == 0 {
        return Ok(t);
    }
    Ok(take_line(&line, target, room, out, t))
}
