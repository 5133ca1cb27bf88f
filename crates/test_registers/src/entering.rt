// A case: a word is entered, and everything that was lent is compared afterwards.
use crate::answers::{Refused, Told};
use crate::calling;
use crate::calling::{Filing, Memory};
use cases::fields::field;
use cases::parts::{BYTE, ENTRY};
use cases::{fields, parts};
use updates::{Account, Entered};

// The most letters of a word, and bytes of a register.
const LETTERS: usize = 64;

const REGISTER: usize = 4096;

// What a line tells from field 8 on: `new NUMBER ..`, `old NUMBER ..` or `refused NUMBER PLACE`. The account is that of
// the holder who files, in the register as it is left.
fn expected(line: &[u8], holder: u16, register: &[u8]) -> Option<Told> {
    let number = fields::number(field(line, 9));
    let account = Account {
        holder,
        live: calling::live_of(register, holder),
    };
    match field(line, 8) {
        b"new" => Some(Ok(Entered::New(u32::try_from(number).ok()?, account))),
        b"old" => Some(Ok(Entered::Present(u32::try_from(number).ok()?, account))),
        b"refused" => Some(Err(Refused {
            number,
            place: fields::number(field(line, 10)),
        })),
        _ => None,
    }
}

// Whether the memory and the register are as a refusal leaves them: as they were.
fn is_kept(line: &[u8], memory: &Memory, register: &[u8]) -> bool {
    *memory == Memory::of(ENTRY, BYTE) && fields::spells(field(line, 6), register)
}

// Whether the memory and the register are as an entry leaves them: the record at the front of its buffer, and each
// table as it was behind the entries for so many letters.
fn is_written(line: &[u8], letters: usize, memory: &Memory, register: &[u8]) -> bool {
    let n = letters.wrapping_add(1);
    parts::kept(&memory.b, n, ENTRY)
        && parts::kept(&memory.a, n, ENTRY)
        && fields::leads(field(line, 10), &memory.record)
        && fields::spells(field(line, 11), register)
}

// Whether a filing of this word into this register is as the line tells.
fn is_filed(line: &[u8], word: &[u8], register: &mut [u8]) -> bool {
    let filing = Filing::of(line, word);
    let mut memory = Memory::of(ENTRY, BYTE);
    let entered = memory.enter(filing, register);
    if expected(line, filing.holder, register) != Some(entered) {
        return false;
    }
    match entered {
        Ok(_) => is_written(line, word.len(), &memory, register),
        Err(_) => is_kept(line, &memory, register),
    }
}

// Whether a case is right.
pub fn is_right(line: &[u8]) -> bool {
    let mut word = [0u8; LETTERS];
    let mut register = [BYTE; REGISTER];
    let n = fields::bytes(field(line, 1), &mut word);
    let size = fields::bytes(field(line, 6), &mut register);
    is_filed(
        line,
        parts::front(&word, n),
        parts::front_mut(&mut register, size),
    ) && parts::kept(&register, size, BYTE)
}
