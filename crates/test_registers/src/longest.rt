// Registers of the most bytes, and of one more. A line has the size, and behind an arrow the answer to `a`, entered by
// holder 65,535 into a fresh register of that size, and the bytes that stand at its front then.
use crate::answers;
use crate::calling::Filing;
use cases::fields::{Sizes, field};
use cases::parts::BYTE;
use cases::{fields, parts};
use registers::MOST_BYTES;

// Whether a case is right.
pub fn is_right(line: &[u8]) -> bool {
    let mut register = [BYTE; MOST_BYTES + 1];
    fields::bytes(b"1000040000000000", &mut register);
    let size = fields::number(field(line, 1)) as usize;
    let filing = Filing {
        word: b"a",
        lent: Sizes {
            b: 2,
            a: 2,
            out: 10,
        },
        holder: 65535,
    };
    let told = filing.enter(parts::front_mut(&mut register, size));
    answers::name(told) == field(line, 3)
        && answers::number(told) == fields::number(field(line, 4))
        && fields::leads(field(line, 5), &register)
}
