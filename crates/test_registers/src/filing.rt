// A filing of the run, and what a plain list says of it: an element and its inverse are one, its first filing has the
// next number, and a holder has at most four.
use crate::answers::{Refused, Told};
use crate::calling::{Filing, Memory};
use crate::kept::List;
use crate::sides;
use cases::parts;
use updates::{Account, Entered};

// The bytes of the register of the run, of its first field, and in front of the record of an entry.
pub const SIZE: usize = 1000;

const FIRST: usize = 7;

const HEAD: usize = 9;

// The most bytes of a record.
const RECORD: usize = 300;

// The refusals of a holder who has four live entries, and of a register without room.
pub const HOLDER_FULL: Refused = Refused {
    number: 13,
    place: 0,
};

pub const REGISTER_FULL: Refused = Refused {
    number: 14,
    place: 0,
};

// The entries, and the bytes of a register with them.
#[derive(Clone, Copy)]
pub struct Run {
    pub list: List,
    pub used: usize,
}

impl Run {
    // Before the first filing.
    pub fn new() -> Run {
        Run {
            list: List::new(),
            used: FIRST,
        }
    }

    // The bytes of a register with one entry more, whose record has n bytes.
    fn with_entry(&self, n: usize) -> usize {
        self.used.wrapping_add(HEAD).wrapping_add(n)
    }

    // What the list says of a record.
    fn listed(&self, record: &[u8], holder: u16) -> Told {
        let live = self.list.live(holder);
        if let Some(number) = self.list.find(record) {
            return Ok(Entered::Present(number, Account { holder, live }));
        }
        if live >= 4 {
            return Err(HOLDER_FULL);
        }
        if SIZE < self.with_entry(record.len()) {
            return Err(REGISTER_FULL);
        }
        let live = live + 1;
        Ok(Entered::New(self.list.count().wrapping_add(1), Account { holder, live }))
    }

    // A new record is one more entry.
    fn keep(&mut self, told: Told, record: &[u8]) {
        if let Ok(Entered::New(_, account)) = told {
            self.list.keep(account.holder, record);
            self.used = self.with_entry(record.len());
        }
    }

    // A word filed: whether the answer and the register are as the list says, and what it says. Of a record that was not
    // made no byte is kept, and the list is not asked.
    pub fn file(&mut self, filing: Filing, register: &mut [u8]) -> (bool, Told) {
        let mut own = Memory::of(0, 0);
        let made = own.make_record(filing);
        let mut first = [0u8; RECORD];
        let n = sides::put_first(parts::front(&own.record, made.unwrap_or(0)), &mut first);
        let record = parts::front(&first, n);
        let told = made.and_then(|_| self.listed(record, filing.holder));
        let entered = filing.enter(register);
        let is_right = entered == told && stands(told, self.used, record, register);
        self.keep(told, record);
        (is_right, told)
    }
}

// Whether a new entry stands at a place of the register with the record that the list keeps.
fn stands(told: Told, at: usize, record: &[u8], register: &[u8]) -> bool {
    let Ok(Entered::New(..)) = told else {
        return true;
    };
    parts::behind(register, at.wrapping_add(HEAD)).starts_with(record)
}
