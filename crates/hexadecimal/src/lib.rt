// Hexadecimal read into bytes, from characters that come in parts: two digits a byte, upper or lower case, blanks
// between bytes. The bytes are kept in a buffer, as many as there is room for.
#![tactic(auto)]

ghost use Rattle.std.specs.Prelude.{◌≡◌, ◌<◌};
ghost use Rattle.lines.specs.Feeding.{kept_line, kept_count};
ghost use Rattle.hexadecimal.specs.Hexadecimal.{is_blank_value};
ghost use Rattle.hexadecimal.specs.Taking.{taken, digit_value, with_digit, hex_step, hex_take};

// Amid a line: how many bytes are held, the digit that waits for its second, the characters so far, and whether the
// next of them is out of place. Kept a flag: the offset counts whether or not its character is out of place.
#[derive(Clone, Copy)]
pub struct Amid {
    pub held: usize,
    pub high: Option<u8>,
    pub offset: u64,
    pub stray: bool,
}

// Before the first character of a line.
pub fn begin() -> Amid {
    Amid {
        held: 0,
        high: None,
        offset: 0,
        stray: false,
    }
}

// The value of a digit; none for any other character.
fn value(c: u8) -> Option<u8>
    ensures { result ≡ digit_value c }
{
    match c {
        b'0'..=b'9' => Some(c - b'0'),
        b'A'..=b'F' => Some(c - b'A' + 10),
        b'a'..=b'f' => Some(c - b'a' + 10),
        _ => None,
    }
}

// A blank: a space or a tab.
fn is_blank(c: u8) -> bool
    ensures { result ≡ is_blank_value c }
{
    c == b' ' || c == b'\t'
}

// One byte more, where there is room.
fn keep(bytes: &mut [u8], held: usize, x: u8) -> usize
    ensures { (bytes.new ≡ kept_line bytes.old held x)
        × (result ≡ kept_count bytes.old held) }
{
    if held < bytes.len() {
        bytes[held] = x;
        return held + 1;
    }
    held
}

// One digit more. Whatever number waits in `high`, the byte is one: it is taken below 16. What is kept is changed in
// its place, here and in `step`: a new one for each character was copied whole, with the bytes between its fields.
fn take_digit(v: u8, bytes: &mut [u8], m: &mut Amid)
    requires { v < 16 }
    ensures { taken bytes.new m.new ≡ with_digit bytes.old m.old v }
{
    m.offset = m.offset.wrapping_add(1);
    m.stray = false;
    match m.high {
        Some(high) => {
            m.held = keep(bytes, m.held, 16 * (high % 16) + v);
            m.high = None;
        }
        None => m.high = Some(v),
    }
}

// One character more.
fn step(c: u8, bytes: &mut [u8], m: &mut Amid)
    ensures { taken bytes.new m.new ≡ hex_step bytes.old m.old c }
{
    if m.stray {
        return;
    }
    match value(c) {
        Some(v) => take_digit(v, bytes, m),
        None if m.high.is_none() && is_blank(c) => m.offset = m.offset.wrapping_add(1),
        None => m.stray = true,
    }
}

// The characters of a part of a line.
pub fn read(chars: &[u8], bytes: &mut [u8], amid: Amid) -> Amid
    ensures { taken bytes.new result ≡ hex_take chars.now bytes.old amid }
{
    let mut m = amid;
    for &c in chars {
        step(c, bytes, &mut m);
    }
    m
}
