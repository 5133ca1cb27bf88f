// The calls on a word, and the memory that they are lent.
use crate::answers::{Refused, Told};
use cases::fields::{Sizes, field};
use cases::{fields, parts};

// The most entries of a table and bytes of a record in a case.
const TABLE: usize = 80;

const RECORD: usize = 300;

// A word that a holder files, with so much of the memory lent.
#[derive(Clone, Copy)]
pub struct Filing<'a> {
    pub word: &'a [u8],
    pub lent: Sizes,
    pub holder: u16,
}

impl<'a> Filing<'a> {
    // A word filed with the sizes and the holder of a line.
    pub fn of(line: &[u8], word: &'a [u8]) -> Filing<'a> {
        Filing {
            word,
            lent: fields::lent(line),
            holder: fields::holder(field(line, 5)),
        }
    }

    // The answer of the call, with memory that is not looked at afterwards.
    pub fn enter(self, register: &mut [u8]) -> Told {
        Memory::of(0, 0).enter(self, register)
    }
}

// Two tables and a record buffer.
#[derive(Clone, Copy, PartialEq, Eq)]
pub struct Memory {
    pub b: [u16; TABLE],
    pub a: [u16; TABLE],
    pub record: [u8; RECORD],
}

impl Memory {
    // Every entry alike, and every byte.
    pub fn of(entry: u16, byte: u8) -> Memory {
        Memory {
            b: [entry; TABLE],
            a: [entry; TABLE],
            record: [byte; RECORD],
        }
    }

    // A word entered into a register.
    pub fn enter(&mut self, filing: Filing, register: &mut [u8]) -> Told {
        let b = parts::front_mut(&mut self.b, filing.lent.b);
        let a = parts::front_mut(&mut self.a, filing.lent.a);
        let record = parts::front_mut(&mut self.record, filing.lent.out);
        updates::enter_word(filing.word, b, a, record, filing.holder, register).map_err(
            Refused::from,
        )
    }

    // The record of a word.
    pub fn make_record(&mut self, filing: Filing) -> Result<usize, Refused> {
        let b = parts::front_mut(&mut self.b, filing.lent.b);
        let a = parts::front_mut(&mut self.a, filing.lent.a);
        let record = parts::front_mut(&mut self.record, filing.lent.out);
        words::word_to_record(filing.word, b, a, record).map_err(Refused::from)
    }
}

// The live entries of a holder; a million where the register is refused: no register has as many, so no row says so.
pub fn live_of(register: &[u8], holder: u16) -> u64 {
    match updates::account_of(register, holder) {
        Ok(account) => account.live,
        Err(_) => 1000000,
    }
}
