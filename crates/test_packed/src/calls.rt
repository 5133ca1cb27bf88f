// The calls on packed shapes, and the memory that they are lent.
use crate::values::NUMBER;
use cases::parts;
use cases::parts::{BYTE, ENTRY};
use thompson::Answer;

// The calls.
#[derive(Clone, Copy, PartialEq, Eq)]
pub enum Call {
    Pack,
    Unpack,
    Before,
    End,
    Grow,
}

impl Call {
    // The call of a row, by the first letter of its name.
    pub fn of(line: &[u8]) -> Call {
        match line {
            [b'p', ..] => Call::Pack,
            [b'u', ..] => Call::Unpack,
            [b'b', ..] => Call::Before,
            [b'e', ..] => Call::End,
            _ => Call::Grow,
        }
    }
}

// How much is lent of a shape, of numbers and of a summary.
#[derive(Clone, Copy)]
pub struct Lent {
    pub shape: usize,
    pub numbers: usize,
    pub summary: usize,
}

// A shape, and a packed one with its summary.
#[derive(Clone, Copy, PartialEq, Eq)]
pub struct Memory<const BYTES: usize, const NUMBERS: usize> {
    pub shape: [u8; BYTES],
    pub numbers: [u64; NUMBERS],
    pub summary: [u16; NUMBERS],
}

impl<const BYTES: usize, const NUMBERS: usize> Memory<BYTES, NUMBERS> {
    // The memory before a call.
    pub fn new() -> Memory<BYTES, NUMBERS> {
        Memory {
            shape: [BYTE; BYTES],
            numbers: [NUMBER; NUMBERS],
            summary: [ENTRY; NUMBERS],
        }
    }

    // A call that asks of a node or a leaf, with so much of the memory lent.
    pub fn call(&mut self, call: Call, asked: u64, lent: Lent) -> Answer {
        let shape = parts::front_mut(&mut self.shape, lent.shape);
        let numbers = parts::front_mut(&mut self.numbers, lent.numbers);
        let summary = parts::front_mut(&mut self.summary, lent.summary);
        match call {
            Call::Pack => thompson::thompson_pack_shape(shape, numbers, summary),
            Call::Unpack => thompson::thompson_unpack_shape(numbers, summary, shape),
            Call::Before => thompson::thompson_carets_before(numbers, summary, asked),
            Call::End => thompson::thompson_subtree_end(numbers, summary, asked),
            Call::Grow => thompson::thompson_grow_caret(numbers, summary, asked),
        }
    }
}
