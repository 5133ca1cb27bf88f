// Why bytes are no register, in words. The crate `registers` tells that they are none; here the first fault is looked
// for, by the entries in order.
use crate::parts;
use registers::{FIRST_SIZE, Heading, MOST_BYTES};

// What is wrong: with the whole, or with an entry, named by its place or its number.
#[derive(Clone, Copy)]
enum Fault {
    TooLong,
    TooShort,
    Beginning,
    FullHolder,
    NotWhole(usize),
    OutOfOrder(usize),
    AboveLast(usize),
    NoRecord(usize),
    Greater(u32),
    Repeated(usize),
}

impl Fault {
    // Says what is wrong.
    fn say(self, fd: i32) {
        io::write_all(fd, b"no register (12): ");
        match self {
            Fault::TooLong => tell(fd, b"more than 65536 bytes\n"),
            Fault::TooShort => tell(fd, b"fewer than 7 bytes\n"),
            Fault::Beginning => tell(fd, b"it does not begin 10 00 04\n"),
            Fault::FullHolder => tell(fd, b"a holder has more than 4 entries\n"),
            Fault::NotWhole(at) => tell_at(fd, at, b" is not whole, or has another tag than 11\n"),
            Fault::OutOfOrder(at) => tell_at(
                fd,
                at,
                b" has the number 0, or one not above that before it\n",
            ),
            Fault::AboveLast(at) => tell_at(fd, at, b" has a number above the last given\n"),
            Fault::NoRecord(at) => tell_at(fd, at, b" has no well-formed record\n"),
            Fault::Greater(number) => tell_greater(fd, number),
            Fault::Repeated(at) => tell_at(fd, at, b" has the record of an entry before it\n"),
        }
    }
}

// A remark.
fn tell(fd: i32, remark: &[u8]) {
    io::write_all(fd, remark);
}

// A remark on the entry at a place.
fn tell_at(fd: i32, at: usize, remark: &[u8]) {
    tell(fd, b"the entry at byte ");
    io::print_decimal(fd, at as u64);
    tell(fd, remark);
}

// That an entry, named by its number, has a record that comes behind its exchange.
fn tell_greater(fd: i32, number: u32) {
    tell(fd, b"entry ");
    io::print_decimal(fd, number as u64);
    tell(
        fd,
        b" has the greater of two records; made before this rule\n",
    );
}

// Whether an entry's record may be stored: well-formed, and not above the record with its sides exchanged.
fn judge_record(at: usize, number: u32, record: &[u8]) -> Result<(), Fault> {
    match records::is_smaller(record) {
        Ok(true) => Ok(()),
        Ok(false) => Err(Fault::Greater(number)),
        Err(_) => Err(Fault::NoRecord(at)),
    }
}

// Whether an entry is right, beside those before it.
fn judge(at: usize, register: &[u8], h: Heading, low: u32, last: u32) -> Result<(), Fault> {
    if h.number <= low {
        return Err(Fault::OutOfOrder(at));
    }
    if h.number > last {
        return Err(Fault::AboveLast(at));
    }
    let record = parts::between(register, h.start, h.next);
    judge_record(at, h.number, record)?;
    match registers::find(register, record) {
        Some(n) if n != h.number => Err(Fault::Repeated(at)),
        _ => Ok(()),
    }
}

// Whether the entries are right. Where all are, and the list ends, a holder has too many.
fn judge_entries(register: &[u8], last: u32) -> Result<(), Fault> {
    let mut at = FIRST_SIZE;
    let mut low = 0;
    for _ in 0..register.len() {
        let Some(h) = registers::entry_at(register, at).or(Err(Fault::NotWhole(at)))? else {
            return Err(Fault::FullHolder);
        };
        judge(at, register, h, low, last)?;
        low = h.number;
        at = h.next;
    }
    Ok(())
}

// The first fault of bytes that are no register. Their beginning alone is a register if the first field stands there.
fn judge_register(register: &[u8]) -> Result<(), Fault> {
    if register.len() > MOST_BYTES {
        return Err(Fault::TooLong);
    }
    if register.len() < FIRST_SIZE {
        return Err(Fault::TooShort);
    }
    let beginning = registers::summary(parts::front(register, FIRST_SIZE), 0);
    judge_entries(register, beginning.or(Err(Fault::Beginning))?.last)
}

// Says what is wrong with bytes that are no register.
pub fn describe(fd: i32, register: &[u8]) {
    if let Err(fault) = judge_register(register) {
        fault.say(fd);
    }
}
