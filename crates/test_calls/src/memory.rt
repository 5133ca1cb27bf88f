// The calls on words, records and texts, each lent memory of the sizes that a line asks for.
use crate::printed;
use crate::printed::{ENTRY, TABLE};
use crate::reading::Given;
use cases::fields::Sizes;
use cases::parts;
use cases::parts::BYTE;
use receipts::OUTPUT;
use thompson::Answer;

// The most bytes of the second buffer that a case asks for.
const BUFFER: usize = 16800;

// The calls that are lent memory.
#[derive(Clone, Copy)]
pub enum Call {
    Check,
    FromText,
    IntoText,
    Pair,
    Spell,
    Tables,
    Word,
    Equal,
}

impl Call {
    // The call of a line, by the first letter of its name: `from` reads a text, `into` writes a record as one.
    pub fn of(line: &[u8]) -> Call {
        match line {
            [b'c', ..] => Call::Check,
            [b'f', ..] => Call::FromText,
            [b'i', ..] => Call::IntoText,
            [b'p', ..] => Call::Pair,
            [b's', ..] => Call::Spell,
            [b't', ..] => Call::Tables,
            [b'w', ..] => Call::Word,
            _ => Call::Equal,
        }
    }

    // The answer of the call on a word, a record or a text, or on two words.
    fn answer(self, given: &[u8], lent: Lent, other: &[u8], lent2: Lent) -> Answer {
        let Lent { b, a, out } = lent;
        let Lent {
            b: b2,
            a: a2,
            out: out2,
        } = lent2;
        match self {
            Call::Check => thompson::thompson_check_record(given),
            Call::FromText => thompson::thompson_text_to_record(given, b, a, out),
            Call::IntoText => thompson::thompson_record_to_text(given, out),
            Call::Pair => thompson::thompson_record_to_tree_pair(given, out, out2),
            Call::Spell => thompson::thompson_record_to_word(given, out),
            Call::Tables => Answer::from(records::record_to_tables(given, b, a)),
            Call::Word => thompson::thompson_word_to_record(given, b, a, out),
            Call::Equal => thompson::thompson_same_element(given, b, a, out, other, b2, a2, out2),
        }
    }
}

// Two tables and a buffer, as much of them as a call is lent.
#[derive(Drop)]
struct Lent<'a> {
    b: &'a mut [u16],
    a: &'a mut [u16],
    out: &'a mut [u8],
}

// Two tables and a buffer.
#[derive(Clone, Copy)]
struct Memory<const BYTES: usize> {
    b: [u16; TABLE],
    a: [u16; TABLE],
    out: [u8; BYTES],
}

impl<const BYTES: usize> Memory<BYTES> {
    // The memory before a call.
    fn new() -> Memory<BYTES> {
        Memory {
            b: [ENTRY; TABLE],
            a: [ENTRY; TABLE],
            out: [BYTE; BYTES],
        }
    }

    // So much of the memory, to be lent.
    fn lend(&mut self, s: Sizes) -> Lent<'_> {
        let Memory { b, a, out } = self;
        Lent {
            b: parts::front_mut(b, s.b),
            a: parts::front_mut(a, s.a),
            out: parts::front_mut(out, s.out),
        }
    }

    // All that has changed.
    fn print(&self) {
        printed::table(b" b", &self.b);
        printed::table(b" a", &self.a);
        printed::buffer(&self.out);
    }
}

// The answer of a call, and all that has changed in the memory.
pub fn lend(call: Call, given: Given, other: Given) {
    let mut first = Memory::<OUTPUT>::new();
    let mut second = Memory::<BUFFER>::new();
    let answer = call.answer(
        given.bytes,
        first.lend(given.lent),
        other.bytes,
        second.lend(other.lent),
    );
    printed::answer(answer);
    first.print();
    second.print();
}
