// The length of a pair by its tables, which need not be those of a record.
use crate::reading::Given;
use cases::{counts, parts};

// The entries of a table, more than a pair of MAX_CARETS carets has.
const ENTRIES: usize = 8200;

// The entries of a table, each two bytes, the high one first; 0 behind the last.
fn read(bytes: &[u8], table: &mut [u16; ENTRIES]) {
    for (entry, pair) in table.iter_mut().zip(bytes.chunks(2)) {
        *entry = u16::from_be_bytes([parts::byte(pair, 0), parts::byte(pair, 1)]);
    }
}

// A length, or that the tables are unfit.
fn print_length(length: Option<usize>) {
    match length {
        Some(n) => counts::print_number(b"", n as u64),
        None => counts::print_text(b"unfit"),
    }
}

// The length of the smallest pair by both engines, from the bytes of its tables, whose entries the first two sizes
// count; those of the second table follow those of the first.
pub fn measure(given: Given) {
    let mut b = [0u16; ENTRIES];
    let mut a = [0u16; ENTRIES];
    let size = given.lent.b;
    read(given.bytes, &mut b);
    read(parts::behind(given.bytes, size.wrapping_mul(2)), &mut a);
    let b = parts::front(&b, size);
    let a = parts::front(&a, given.lent.a);
    print_length(lengths::pair_length(b, a));
    counts::print_text(b" ");
    print_length(scans::scan_length(b, a));
}
