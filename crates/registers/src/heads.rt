// The first field of a register, and the head of an entry.
ghost use Rattle.std.specs.Prelude.{◌≡◌, drop};
ghost use Rattle.registers.specs.Answers.{heading_of};
ghost use Rattle.registers.specs.inside.Steps.{first_of, Headed};

use crate::{ENTRY_HEAD, Heading, LAST_TAG, MOST_BYTES, NUMBER_SIZE};
use fields::HEAD_SIZE;
use fields::integers::{four_at, number_at};

// The number of the first field, where it stands and the register is not too long.
pub fn first_number(s: &[u8]) -> Option<u32>
    ensures { result ≡ first_of s.now }
{
    if MOST_BYTES < s.len() {
        return None;
    }
    let length = fields::read_field(s, 0, LAST_TAG)?;
    if length != NUMBER_SIZE {
        return None;
    }
    Some(four_at(s, HEAD_SIZE) as u32)
}

// The head of the entry that stands at an offset, with a body of so many bytes.
pub fn heading(s: &[u8], at: usize, length: usize) -> Heading
    requires { Headed s.now at length }
    ensures { result ≡ heading_of (drop at s.now) at }
{
    Heading {
        number: four_at(s, at + HEAD_SIZE) as u32,
        holder: number_at(s, at + HEAD_SIZE + NUMBER_SIZE) as u16,
        start: at + ENTRY_HEAD,
        next: at + HEAD_SIZE + length,
    }
}
