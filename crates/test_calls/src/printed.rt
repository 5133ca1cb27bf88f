// What is printed, as `0 14 b 0:1 1:0 2:1 3:55555 a 0:0 3:55555 0=0100..`: the two numbers of an answer, each table
// where its entries change, the new bytes of the buffer. Where nothing was altered only `b` and `a` stand there.
use cases::counts::{print_number, print_text};
use cases::parts::BYTE;
use thompson::Answer;

// The number of standard output.
const STDOUT: i32 = 1;

// What a table entry holds before a call.
pub const ENTRY: u16 = 55555;

// The entries of a table, more than any call fills.
pub const TABLE: usize = 4200;

// The number of a refusal and its place, or 0 and the value.
pub fn answer(a: Answer) {
    print_number(b"", a.refusal);
    print_number(b" ", a.value);
}

// The entries of a table that are not the one before them; before the first stands what all held before the call.
pub fn table(name: &[u8], entries: &[u16; TABLE]) {
    print_text(name);
    let mut before = ENTRY;
    for (i, x) in entries.iter().enumerate() {
        if *x != before {
            print_number(b" ", i as u64);
            print_number(b":", *x as u64);
        }
        before = *x;
    }
}

// A byte that is not what it was before the call; its place first, unless the byte before it is new too.
fn changed(i: usize, before: u8, x: u8) {
    if x == BYTE {
        return;
    }
    if before == BYTE {
        print_number(b" ", i as u64);
        print_text(b"=");
    }
    io::print_hex(STDOUT, x as u64, 2);
}

// The bytes of a buffer that are not what they were before the call.
pub fn buffer(bytes: &[u8]) {
    let mut before = BYTE;
    for (i, x) in bytes.iter().enumerate() {
        changed(i, before, *x);
        before = *x;
    }
}
