// Lines at the front of a buffer: bytes, as they are or in hexadecimal, or a number.
ghost use Rattle.numerals.specs.Decimals.{decimal};
ghost use Rattle.appending.specs.Hexadecimal.{hex_of};
ghost use Rattle.appending.specs.inside.Appending.{Appended};
ghost use Rattle.commands.specs.Answers.{line_of};

use crate::ANSWER;
use appending::{append, append_decimal, append_hex};

// Bytes as a line.
pub fn put_line(bytes: &[u8], out: &mut [u8; ANSWER]) -> usize
    ensures { Appended (line_of bytes.now) out.old 0 out.new result }
{
    let end = append(bytes, out, 0);
    append(b"\n", out, end)
}

// Bytes as a line in hexadecimal.
pub fn put_hex(bytes: &[u8], out: &mut [u8; ANSWER]) -> usize
    ensures { Appended (line_of (hex_of bytes.now)) out.old 0 out.new result }
{
    let end = append_hex(bytes, out, 0);
    append(b"\n", out, end)
}

// A number as a line.
pub fn put_number(n: usize, out: &mut [u8; ANSWER]) -> usize
    ensures { Appended (line_of (decimal n)) out.old 0 out.new result }
{
    let end = append_decimal(n as u64, out, 0);
    append(b"\n", out, end)
}
