// The register of first filings: checked, summed up and searched (02, [3]). Nothing is written.
#![tactic(auto)]

ghost use Rattle.std.specs.Prelude.{◌≡◌};
ghost use Rattle.registers.specs.Finding.{found};
ghost use Rattle.registers.specs.Answers.{RegisterChecked, Summarised, search_of, heading_at};

use fields::HEAD_SIZE;
use refusals::Refusal;

mod heads;
mod passing;
mod prints;

// The most bytes of a register.
pub const MOST_BYTES: usize = 65536;

// The most live entries of a holder.
pub const LIVE_MOST: u64 = 4;

// The tags of the first field and of an entry.
pub const LAST_TAG: u8 = 0x10;

pub const ENTRY_TAG: u8 = 0x11;

// The bytes of an entry number, of the number and the holder in front of an entry's record, of the first field.
pub const NUMBER_SIZE: usize = 4;

pub const ENTRY_BASE: usize = NUMBER_SIZE + 2;

pub const FIRST_SIZE: usize = HEAD_SIZE + NUMBER_SIZE;

// The bytes of an entry in front of its record.
pub const ENTRY_HEAD: usize = HEAD_SIZE + ENTRY_BASE;

// The entries of a table with one for each number of two bytes.
const TABLE: usize = 65536;

// What a mark adds to an entry of it.
const MARK: u8 = 8;

// An entry by its number, its holder, the offset of its record and the offset behind it.
#[derive(Clone, Copy)]
pub struct Heading {
    pub number: u32,
    pub holder: u16,
    pub start: usize,
    pub next: usize,
}

// The last number given, where the entries end, and a holder's live entries.
#[derive(Clone, Copy)]
pub struct Overview {
    pub last: u32,
    pub end: usize,
    pub live: u64,
}

// The entry at an offset by its head; its record is not read.
pub fn entry_at(register: &[u8], at: usize) -> Result<Option<Heading>, Refusal>
    ensures { result ≡ heading_at register.now at }
{
    if register.len() <= at || register[at] == 0 {
        return Ok(None);
    }
    let length = fields::read_field(register, at, ENTRY_TAG).ok_or(Refusal::BadRegister)?;
    if length < ENTRY_BASE {
        return Err(Refusal::BadRegister);
    }
    Ok(Some(heads::heading(register, at, length)))
}

// The number of the first entry, by the entries' heads alone, whose record is these bytes. A `while`: an entry says
// where the next begins.
pub fn find(register: &[u8], record: &[u8]) -> Option<u32>
    ensures { result ≡ search_of (found register.now «record».now) }
{
    let mut at = FIRST_SIZE;
    while let Some(h) = entry_at(register, at).ok()? {
        if &register[h.start..h.next] == record {
            return Some(h.number);
        }
        at = h.next;
    }
    None
}

// The last number given, where the entries end and a holder's live entries, from one pass; or 12.
pub fn summary(register: &[u8], holder: u16) -> Result<Overview, Refusal>
    ensures { Summarised register.now holder result }
{
    let last = heads::first_number(register).ok_or(Refusal::BadRegister)?;
    passing::pass(register, last, holder)
}

// Whether a buffer is a well-formed register: accepted, or 12.
pub fn check_register(register: &[u8]) -> Result<(), Refusal>
    ensures { RegisterChecked register.now result }
{
    summary(register, 0)?;
    Ok(())
}
