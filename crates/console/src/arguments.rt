// The arguments of the command line, the program's name among them as argument 0.
use std::env::{Env, FillError};

// The bytes of the longest argument that a system hands over, and one more.
pub const ARGUMENT: usize = 131072;

// One above the highest line number that can be asked for.
const HIGHEST: u64 = u64::MAX / 10 - 2;

// Whether there is an argument i.
fn is_there<E: Env>(words: &E, i: usize) -> bool {
    let mut word = [0u8; 16];
    match words.arg(i, &mut word) {
        Ok(_) | Err(FillError::TooLong) => true,
        Err(FillError::NotPresent) => false,
    }
}

// How many arguments there are.
pub fn count<E: Env>(words: &E) -> usize {
    (0..usize::MAX)
        .find(|&i| !is_there(words, i))
        .unwrap_or(usize::MAX)
}

// Argument i, or nothing where there is none or where it does not fit the room.
pub fn text<'a, E: Env>(words: &E, i: usize, room: &'a mut [u8]) -> &'a [u8] {
    match words.arg(i, room) {
        Ok(n) => &room[..n],
        Err(_) => &[],
    }
}

// Whether argument i is a name.
pub fn is<E: Env>(words: &E, i: usize, name: &[u8]) -> bool {
    let mut room = [0u8; 16];
    text(words, i, &mut room) == name
}

// One more digit behind a number.
fn with_digit(value: u64, c: u8) -> Option<u64> {
    if value > HIGHEST || !c.is_ascii_digit() {
        return None;
    }
    Some(value * 10 + u64::from(c - b'0'))
}

// Argument i as a number from 1 on, in decimal digits without zeros in front.
pub fn number<E: Env>(words: &E, i: usize) -> Option<u64> {
    let mut room = [0u8; 20];
    let digits = text(words, i, &mut room);
    if digits.is_empty() || digits[0] == b'0' {
        return None;
    }
    digits.iter().try_fold(0, |value, &c| with_digit(value, c))
}
