// The calls that read a register, on bytes that are none or hardly one: each answers, whatever the offset. A line has
// the call, the bytes, what else is given, and behind an arrow the answer: `check` 0 or the refusal, `end` where the
// entries end or 0, `find` the number found or 0, `at` a head, the end or a refusal.
use cases::fields::field;
use cases::{fields, parts};
use registers::Heading;

// The most bytes of a case.
const MOST: usize = 32;

// The answer of `check_register`.
pub fn checked(s: &[u8]) -> u64 {
    match registers::check_register(s) {
        Ok(()) => 0,
        Err(r) => r.number() as u64,
    }
}

// The answer of `summary`.
fn end_of(s: &[u8], holder: u16) -> u64 {
    match registers::summary(s, holder) {
        Ok(overview) => overview.end as u64,
        Err(_) => 0,
    }
}

// The answer of `find` to the record in a field.
fn found(s: &[u8], text: &[u8]) -> u64 {
    let mut record = [0u8; MOST];
    let n = fields::bytes(text, &mut record);
    registers::find(s, parts::front(&record, n)).map_or(0, u64::from)
}

// The offset in a field; `far` is the highest.
fn offset(text: &[u8]) -> usize {
    if text.starts_with(b"f") {
        return usize::MAX;
    }
    fields::number(text) as usize
}

// Whether an entry is the one told: its number, its holder, where its record begins and where the next entry does.
fn is_entry(line: &[u8], h: Heading) -> bool {
    let told = |i| fields::number(field(line, i));
    [
        h.number as u64,
        h.holder as u64,
        h.start as u64,
        h.next as u64,
    ] == [told(6), told(7), told(8), told(9)]
}

// Whether the answer of `entry_at` is the one told.
fn is_entry_right(line: &[u8], s: &[u8], at: usize) -> bool {
    let told = field(line, 5);
    match registers::entry_at(s, at) {
        Ok(Some(h)) => told.starts_with(b"h") && is_entry(line, h),
        Ok(None) => told.starts_with(b"e"),
        Err(_) => told.starts_with(b"r"),
    }
}

// Whether a call on these bytes answers what is told.
fn is_answered(line: &[u8], s: &[u8]) -> bool {
    let given = field(line, 3);
    let told = fields::number(field(line, 5));
    match field(line, 1) {
        [b'c', ..] => checked(s) == told,
        [b'e', ..] => end_of(s, fields::holder(given)) == told,
        [b'f', ..] => found(s, given) == told,
        _ => is_entry_right(line, s, offset(given)),
    }
}

// Whether a case is right.
pub fn is_right(line: &[u8]) -> bool {
    let mut s = [0u8; MOST];
    let n = fields::bytes(field(line, 2), &mut s);
    is_answered(line, parts::front(&s, n))
}
