// A row of the receipts: the receipt of a line.
#![tactic(auto)]

ghost use Rattle.std.specs.Prelude.{◌≡◌, not, length, ltb, replicate};
ghost use Rattle.refusals.specs.Placing.{fitting, Placed};
ghost use Rattle.rows.specs.Receipts.{receipt_of, receipt_size};

use forest::Scratch;
use records::BASE_SIZE;
use refusals::{LIMIT, Refusal};

mod row;
mod text;

// The entries of a table that serves every word.
pub const TABLE: usize = LIMIT + 1;

// The bytes of the longest record that a word has.
pub const RECORD: usize = BASE_SIZE + 4 * LIMIT;

// The most bytes of the receipt of a line, but for eight for each of its letters.
pub const SHORT_RECEIPT: usize = 85 + 2 * BASE_SIZE;

// The memory in which a line is worked out, long enough for every line; what it holds is open at entry and at exit.
#[derive(Drop)]
pub struct Room {
    pub b: [u16; TABLE],
    pub a: [u16; TABLE],
    pub record: [u8; RECORD],
    pub scratch: Scratch,
}

impl Room {
    // Cleared; any content would do.
    pub fn new() -> Room
        ensures tables { (result.b ≡ replicate TABLE 0) × (result.a ≡ replicate TABLE 0) }
        ensures buffer { result.«record» ≡ replicate RECORD 0 }
    {
        Room {
            b: [0; TABLE],
            a: [0; TABLE],
            record: [0; RECORD],
            scratch: Scratch::new(),
        }
    }
}

// Whether a buffer is long enough for the receipt of a line of so many bytes.
fn is_enough(out: usize, letters: usize) -> bool
    ensures { result ≡ not (ltb out (receipt_size letters)) }
{
    out >= SHORT_RECEIPT && letters <= (out - SHORT_RECEIPT) / 8
}

// The receipt of a line, at the front of a buffer, which needs the size stated for a line of its length.
pub fn put_receipt(
    number: u64,
    line: &[u8],
    out: &mut [u8],
    room: &mut Room,
) -> Result<usize, Refusal>
    ensures { Placed (fitting (receipt_size (length line.now)) (receipt_of number line.now)
        out.old) out.old out.new result }
{
    if !is_enough(out.len(), line.len()) {
        return Err(Refusal::ShortBuffer);
    }
    Ok(row::put_line(number, line, out, room))
}
