// The fields of a line, with a space between: words, decimal numbers, bytes in hexadecimal digits, `-` where there are
// none.
use crate::parts;
use crate::parts::BYTE;

// How much of two tables and of a buffer is lent.
#[derive(Clone, Copy)]
pub struct Sizes {
    pub b: usize,
    pub a: usize,
    pub out: usize,
}

// Piece i of bytes not below `least`, counted from 0, with one other byte between; empty where there is none.
pub fn piece(line: &[u8], i: usize, least: u8) -> &[u8] {
    line.split(|&x| x < least).nth(i).unwrap_or(&[])
}

// Field i of a line.
pub fn field(line: &[u8], i: usize) -> &[u8] {
    piece(line, i, b'!')
}

// Number i in a field that has more than one, with any mark between.
pub fn number_at(field: &[u8], i: usize) -> u64 {
    number(piece(field, i, b'0'))
}

// The sizes in a line.
pub fn lent(line: &[u8]) -> Sizes {
    Sizes {
        b: number(field(line, 2)) as usize,
        a: number(field(line, 3)) as usize,
        out: number(field(line, 4)) as usize,
    }
}

// The number in a field, at most 2^64 - 1.
pub fn number(field: &[u8]) -> u64 {
    field.iter().fold(0u64, |value, x| {
        (value % 1844674407370955162 * 10).wrapping_add(u64::from(x % 16))
    })
}

// The holder in a field.
pub fn holder(field: &[u8]) -> u16 {
    (number(field) % 65536) as u16
}

// The number that hexadecimal digits spell.
pub fn hexadecimal(digits: &[u8]) -> u64 {
    digits.iter().fold(0u64, |value, x| {
        value
            .wrapping_mul(16)
            .wrapping_add(u64::from((x % 16 + x / 64 * 9) % 16))
    })
}

// A byte of a field: two digits.
fn byte(pair: &[u8]) -> u8 {
    (hexadecimal(pair) % 256) as u8
}

// The bytes of a field, and how many.
pub fn bytes(field: &[u8], out: &mut [u8]) -> usize {
    for (place, pair) in out.iter_mut().zip(field.chunks_exact(2)) {
        *place = byte(pair);
    }
    out.len().min(field.len() / 2)
}

// Whether a field spells these bytes.
pub fn spells(field: &[u8], bytes: &[u8]) -> bool {
    field.len() / 2 == bytes.len()
        && field
            .chunks_exact(2)
            .zip(bytes)
            .all(|(pair, x)| byte(pair) == *x)
}

// Whether the bytes that a field spells stand at the front, and all behind them is as before the call.
pub fn leads(field: &[u8], s: &[u8]) -> bool {
    let n = field.len() / 2;
    spells(field, parts::front(s, n)) && parts::kept(s, n, BYTE)
}
