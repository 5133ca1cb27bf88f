// Bytes and decimal numbers at a place of a buffer. Each function answers the place behind what it put; where that does
// not fit it writes nothing, and `place` and `place_decimal` answer `None`, the others the place itself.
#![tactic(auto)]

ghost use Rattle.numerals.specs.Decimals.{decimal};
ghost use Rattle.printing.specs.inside.Printing.{Put, Placed};

// All bytes of a list, if they fit. Byte by byte, as `copying::copy_bytes` does, and for its reason.
pub fn place(bytes: &[u8], out: &mut [u8], at: usize) -> Option<usize>
    ensures { Placed bytes.now out.old at out.new result }
{
    let end = at.checked_add(bytes.len())?;
    if out.len() < end {
        return None;
    }
    for i in 0..bytes.len() {
        out[at + i] = bytes[i];
    }
    Some(end)
}

// A number in decimal digits, if they fit.
pub fn place_decimal(n: u64, out: &mut [u8], at: usize) -> Option<usize>
    ensures { Placed (decimal n) out.old at out.new result }
{
    let mut digits = [0u8; 20];
    let k = io::decimal(n, &mut digits);
    place(&digits[..k], out, at)
}

// All bytes of a list.
pub fn put(bytes: &[u8], out: &mut [u8], at: usize) -> usize
    ensures { Put bytes.now out.old at out.new result }
{
    place(bytes, out, at).unwrap_or(at)
}

// A number in decimal digits.
pub fn put_decimal(n: u64, out: &mut [u8], at: usize) -> usize
    ensures { Put (decimal n) out.old at out.new result }
{
    place_decimal(n, out, at).unwrap_or(at)
}
