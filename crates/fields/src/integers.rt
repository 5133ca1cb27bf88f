// Numbers in two and four bytes, high byte first: read at a place of bytes, and written at a place of a buffer.
ghost use Rattle.std.specs.Prelude.{◌≡◌, ◌+◌, ◌≤◌, ◌<◌, length};
ghost use Rattle.lists.specs.inside.Writes.{Wrote};
ghost use Rattle.fields.specs.Fields.{two_bytes, two_at, four_bytes, four_at_value};

// The two-byte number at an offset.
pub fn number_at(s: &[u8], at: usize) -> usize
    requires { at + 1 < length s.now }
    ensures value { result ≡ two_at s.now at }
    ensures upper_bound { result < 65536 }
{
    u16::from_be_bytes([s[at], s[at + 1]]) as usize
}

// The four-byte number at an offset.
pub fn four_at(s: &[u8], at: usize) -> usize
    requires { at + 3 < length s.now }
    ensures value { result ≡ four_at_value s.now at }
    ensures upper_bound { result < 4294967296 }
{
    u32::from_be_bytes([s[at], s[at + 1], s[at + 2], s[at + 3]]) as usize
}

// A number in two bytes; the answer is the place behind them.
pub fn put_two(out: &mut [u8], at: usize, x: usize) -> usize
    requires { (at + 2 ≤ length out.old) × (x < 65536) }
    ensures { Wrote (two_bytes x) out.old at out.new result }
{
    out[at..at + 2].copy_from_slice(&(x as u16).to_be_bytes());
    at + 2
}

// A number in four bytes; the answer is the place behind them.
pub fn put_four(out: &mut [u8], at: usize, x: usize) -> usize
    requires { (at + 4 ≤ length out.old) × (x < 4294967296) }
    ensures { Wrote (four_bytes x) out.old at out.new result }
{
    out[at..at + 4].copy_from_slice(&(x as u32).to_be_bytes());
    at + 4
}
