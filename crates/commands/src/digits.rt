// The digits of a shape, and the front of a buffer.
ghost use Rattle.std.specs.Prelude.{◌≡◌, cond, take, eqb};
ghost use Rattle.appending.specs.inside.Appending.{Appended};
ghost use Rattle.commands.specs.Records.{digits_of};

use appending::{append, append_byte};

// The first n bytes, or all.
pub fn front(bytes: &[u8], n: usize) -> &[u8]
    ensures { result.now ≡ take n bytes.now }
{
    bytes.get(..n).unwrap_or(bytes)
}

// The digit of a node: 1 for a caret, 0 for a leaf.
fn digit(x: u8) -> u8
    ensures { result ≡ cond (eqb x 0) 48 49 }
{
    if x == 0 { b'0' } else { b'1' }
}

// A digit for each node of a shape.
pub fn append_digits(shape: &[u8], out: &mut [u8], at: usize) -> usize
    ensures { Appended (digits_of shape.now) out.old at out.new result }
{
    let mut end = append(b"", out, at);
    for &x in shape {
        end = append_byte(digit(x), out, end);
    }
    end
}
