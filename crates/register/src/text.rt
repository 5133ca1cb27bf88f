// Text on standard output and standard error. Where a write fails, so does the next one: the last of a line tells.
use crate::parts;
use std::fmt;
use std::fmt::Write;
use std::io::Error;

// The numbers of standard output and standard error.
pub const STDOUT: i32 = 1;

pub const STDERR: i32 = 2;

// The most bytes of an error's text.
const TEXT: usize = 256;

// An error's text in a buffer, and how many bytes of it are used. No heap: what does not fit is left out.
#[derive(Drop)]
struct Text {
    bytes: [u8; TEXT],
    used: usize,
}

impl Write for Text {
    fn write_str(&mut self, s: &str) -> fmt::Result {
        self.used = printing::put(s.as_bytes(), &mut self.bytes, self.used);
        Ok(())
    }
}

// Says on standard error what went wrong.
pub fn tell(remark: &[u8]) {
    io::write_all(STDERR, remark);
}

// An error's text without the blank and the number in parentheses behind it.
fn without_number(text: &[u8]) -> &[u8] {
    match text.iter().rposition(|x| *x == b'(') {
        Some(i) => parts::front(text, i.wrapping_sub(1)),
        None => text,
    }
}

// Says on standard error what failed, and why.
pub fn fail(what: &[u8], error: Error) {
    let mut text = Text {
        bytes: [0; TEXT],
        used: 0,
    };
    let _ = write!(text, "{error}");
    tell(what);
    tell(b": ");
    tell(without_number(parts::front(&text.bytes, text.used)));
    tell(b"\n");
}

// Says that the output cannot be written, where that is so.
pub fn confirm(well: bool) {
    if !well {
        tell(b"register: the output cannot be written\n");
    }
}

// A number in decimal digits, and what stands behind it.
pub fn number(n: u64, behind: &[u8]) -> bool {
    io::print_decimal(STDOUT, n);
    io::write_all(STDOUT, behind)
}

// A name, a number and the end of the line.
pub fn named(name: &[u8], n: u64) -> bool {
    io::write_all(STDOUT, name);
    number(n, b"\n")
}

// A byte in two hexadecimal digits.
fn hex_byte(x: u8) {
    io::print_hex(STDOUT, x as u64, 2);
}

// Bytes in hexadecimal digits, two each.
pub fn hex(bytes: &[u8]) {
    for &x in bytes {
        hex_byte(x);
    }
}
