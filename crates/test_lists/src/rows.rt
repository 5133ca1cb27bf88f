// A row: the call, and everything that was lent compared afterwards with what the row tells, or with what one call a
// word leaves.
use crate::by_word;
use crate::memory::Memory;
use cases::fields;
use cases::fields::field;
use thompson::Answer;

// Whether a row tells that the list is accepted.
pub fn is_accepted(line: &[u8]) -> bool {
    field(line, 6).starts_with(b"o")
}

// The answer told: no refusal and as many bytes, or number and place.
fn told_answer(line: &[u8]) -> Answer {
    if is_accepted(line) {
        return Answer {
            refusal: 0,
            value: (field(line, 7).len() / 2) as u64,
        };
    }
    Answer {
        refusal: fields::number(field(line, 7)),
        value: fields::number(field(line, 8)),
    }
}

// Whether the memory is as a row tells; where the list is refused, it is as it was.
fn is_left(line: &[u8], memory: &Memory) -> bool {
    if !is_accepted(line) {
        return *memory == Memory::new();
    }
    memory.is_as(field(line, 7), field(line, 8), field(line, 9))
}

// Whether the call does with a list what the row tells.
pub fn is_as_told(line: &[u8], list: &[u8]) -> bool {
    let mut memory = Memory::new();
    let answer = memory.call(list, fields::lent(line));
    answer == told_answer(line) && is_left(line, &memory)
}

// Whether the call answers what the row tells, and does with a list what one call a word does.
pub fn is_as_each_word(line: &[u8], list: &[u8]) -> bool {
    let mut memory = Memory::new();
    let answer = memory.call(list, fields::lent(line));
    let mut each = Memory::new();
    let written = by_word::put_items(list, &mut each);
    answer == told_answer(line) && answer.value == written as u64 && memory == each
}
