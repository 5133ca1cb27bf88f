// The memory that a call is lent, and what a field says of a table: `1*1,0*2` is 1 once, then 0 twice; entries that it
// does not name are unchanged.
use cases::fields::Sizes;
use cases::parts::{BYTE, ENTRY};
use cases::{fields, parts};
use thompson::Answer;

// The most entries of a table.
const TABLE: usize = 4200;

// The most bytes of an output.
const OUTPUT: usize = 49400;

// Two tables and an output.
#[derive(Clone, Copy, PartialEq, Eq)]
pub struct Memory {
    pub b: [u16; TABLE],
    pub a: [u16; TABLE],
    pub out: [u8; OUTPUT],
}

impl Memory {
    // The memory before a call.
    pub fn new() -> Memory {
        Memory {
            b: [ENTRY; TABLE],
            a: [ENTRY; TABLE],
            out: [BYTE; OUTPUT],
        }
    }

    // The call on a list, with so much of the memory lent.
    pub fn call(&mut self, list: &[u8], lent: Sizes) -> Answer {
        let b = parts::front_mut(&mut self.b, lent.b);
        let a = parts::front_mut(&mut self.a, lent.a);
        thompson::thompson_list_to_records(list, b, a, parts::front_mut(&mut self.out, lent.out))
    }

    // Whether the output has the bytes that a field spells at its front, and the tables are as two more say.
    pub fn is_as(&self, out: &[u8], b: &[u8], a: &[u8]) -> bool {
        fields::leads(out, &self.out) && self.b == told(b) && self.a == told(a)
    }
}

// An entry n times, from a place on, as far as there is room. The place behind.
fn put_run(table: &mut [u16; TABLE], at: usize, x: u16, n: usize) -> usize {
    let end = at.saturating_add(n).min(TABLE);
    if at < end {
        table[at..end].fill(x);
    }
    end
}

// The table that a field says.
fn told(field: &[u8]) -> [u16; TABLE] {
    let mut table = [ENTRY; TABLE];
    let mut at = 0;
    for run in field.split(|&x| x == b',') {
        let x = (fields::number_at(run, 0) % 65536) as u16;
        at = put_run(&mut table, at, x, fields::number_at(run, 1) as usize);
    }
    table
}
