// The words of the command line. `console` has `count` and `text` too, and the rest with other limits: kept in each, as
// a crate of the two functions, six lines of calls of `Env`, would be no plainer.
use crate::text::tell;
use std::env::{Env, FillError};

// The most bytes of the word that tells what to do.
pub const WORD: usize = 8;

// The highest number of a command line.
const HIGHEST: u64 = 65536;

// One command a line.
pub fn usage() {
    tell(b"register FILE new BYTES      makes FILE, a register of 7 to 65536 bytes\n");
    tell(
        b"register FILE enter HOLDER   enters the words of standard input for holder 0 to 65535\n",
    );
    tell(b"register FILE list           lists the entries: number, holder, record\n");
    tell(
        b"register FILE check          entries, last number, bytes used and free, or what is wrong\n",
    );
}

// Whether there is a word i.
fn is_there<E: Env>(words: &E, i: usize) -> bool {
    let mut word = [0u8; 8];
    match words.arg(i, &mut word) {
        Ok(_) | Err(FillError::TooLong) => true,
        Err(FillError::NotPresent) => false,
    }
}

// How many words there are, the program's name among them.
pub fn count<E: Env>(words: &E) -> usize {
    (0..usize::MAX)
        .find(|&i| !is_there(words, i))
        .unwrap_or(usize::MAX)
}

// Word i, or nothing where there is none or where it does not fit the room.
pub fn text<'a, E: Env>(words: &E, i: usize, room: &'a mut [u8]) -> &'a [u8] {
    match words.arg(i, room) {
        Ok(n) => &room[..n],
        Err(_) => &[],
    }
}

// The word that tells what to do.
pub fn word<'a, E: Env>(words: &E, room: &'a mut [u8; WORD]) -> &'a [u8] {
    text(words, 2, room)
}

// One more digit behind a number.
fn with_digit(value: u64, digit: u8) -> Option<u64> {
    if value > HIGHEST || !digit.is_ascii_digit() {
        return None;
    }
    Some(value * 10 + u64::from(digit - b'0'))
}

// The argument of the command as a number.
pub fn number<E: Env>(words: &E) -> Option<u64> {
    let mut room = [0u8; 16];
    let digits = text(words, 3, &mut room);
    if digits.is_empty() {
        return None;
    }
    digits.iter().try_fold(0, |value, &c| with_digit(value, c))
}
