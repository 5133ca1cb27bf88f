// Text appended to a buffer, piece by piece. Each function answers the place behind what it appended; where that does
// not fit it answers BEYOND, and so does every one behind it, so that a text needs no count of its bytes beforehand.
#![tactic(auto)]

ghost use Rattle.std.specs.Prelude.{[], ◌∷◌, ◌<◌, ◌≡◌};
ghost use Rattle.io.specs.Digits.{hex_digit_ascii};
ghost use Rattle.numerals.specs.Decimals.{decimal};
ghost use Rattle.appending.specs.Hexadecimal.{hex_of};
ghost use Rattle.appending.specs.inside.Appending.{Appended};

// The place behind a text that does not fit.
// Kept a place, not an Option: the next append takes it as its place, so that a chain is tested once, at its end.
pub const BEYOND: usize = usize::MAX;

// All bytes of a list.
pub fn append(bytes: &[u8], out: &mut [u8], at: usize) -> usize
    ensures { Appended bytes.now out.old at out.new result }
{
    printing::place(bytes, out, at).unwrap_or(BEYOND)
}

// One byte.
pub fn append_byte(x: u8, out: &mut [u8], at: usize) -> usize
    ensures { Appended (x ∷ []) out.old at out.new result }
{
    append(&[x], out, at)
}

// A number in decimal digits.
pub fn append_decimal(n: u64, out: &mut [u8], at: usize) -> usize
    ensures { Appended (decimal n) out.old at out.new result }
{
    printing::place_decimal(n, out, at).unwrap_or(BEYOND)
}

// A hexadecimal digit.
fn digit(d: u8) -> u8
    requires { d < 16 }
    ensures { result ≡ hex_digit_ascii d }
{
    if d < 10 { b'0' + d } else { b'a' + (d - 10) }
}

// Bytes in hexadecimal digits, two each. The place behind them is the answer, so it is counted beside the bytes.
pub fn append_hex(bytes: &[u8], out: &mut [u8], at: usize) -> usize
    ensures { Appended (hex_of bytes.now) out.old at out.new result }
{
    if out.len() < at || (out.len() - at) / 2 < bytes.len() {
        return BEYOND;
    }
    let mut end = at;
    for &x in bytes {
        out[end] = digit(x / 16);
        out[end + 1] = digit(x % 16);
        end += 2;
    }
    end
}
