// A row: the call, and everything that was lent compared afterwards with what the row tells.
use crate::calls::{Call, Lent, Memory};
use crate::values;
use cases::fields;
use cases::fields::field;
use thompson::Answer;

// The most bytes of a shape and the most numbers of a row.
const SHAPE: usize = 400;

const NUMBERS: usize = 264;

// What a row gives: `pack` bytes and two sizes, the others numbers, a summary, and a size, a node or a leaf.
fn put_given(line: &[u8], call: Call, memory: &mut Memory<SHAPE, NUMBERS>) -> Lent {
    if call == Call::Pack {
        return Lent {
            shape: fields::bytes(field(line, 1), &mut memory.shape),
            numbers: fields::number(field(line, 2)) as usize,
            summary: fields::number(field(line, 3)) as usize,
        };
    }
    Lent {
        shape: fields::number(field(line, 3)) as usize,
        numbers: values::put(field(line, 1), &mut memory.numbers),
        summary: values::put(field(line, 2), &mut memory.summary),
    }
}

// Whether a row tells that the call is accepted.
fn is_accepted(line: &[u8]) -> bool {
    field(line, 5).starts_with(b"o")
}

// The memory as a row tells it: an accepted call leaves the bytes of a shape, or numbers and a summary; all else is as
// given.
fn put_told(line: &[u8], call: Call, memory: &mut Memory<SHAPE, NUMBERS>) {
    put_given(line, call, memory);
    if !is_accepted(line) {
        return;
    }
    match call {
        Call::Unpack => {
            fields::bytes(field(line, 6), &mut memory.shape);
        }
        Call::Pack | Call::Grow => {
            values::put(field(line, 7), &mut memory.numbers);
            values::put(field(line, 8), &mut memory.summary);
        }
        Call::Before | Call::End => {}
    }
}

// The answer told: no refusal and the value, or number and place.
fn told_answer(line: &[u8], call: Call) -> Answer {
    if !is_accepted(line) {
        return Answer {
            refusal: fields::number(field(line, 6)),
            value: fields::number(field(line, 7)),
        };
    }
    let value = match call {
        Call::Unpack => (field(line, 6).len() / 2) as u64,
        _ => fields::number(field(line, 6)),
    };
    Answer { refusal: 0, value }
}

// Whether the call of a row answers what the row tells and leaves the memory as told.
pub fn right(line: &[u8]) -> bool {
    let call = Call::of(line);
    let mut memory = Memory::new();
    let lent = put_given(line, call, &mut memory);
    let answer = memory.call(call, fields::number(field(line, 3)), lent);
    let mut told = Memory::new();
    put_told(line, call, &mut told);
    answer == told_answer(line, call) && memory == told
}
