// The receipts of an input that comes in parts: a header, then a line for each line of the input. A program reads a
// part, calls, and writes what stands at the front of the output buffer.
#![tactic(auto)]

ghost use Rattle.std.specs.Prelude.{◌≡◌, ◌+◌, ◌≤◌, not, length, take, nat_lt};
ghost use Rattle.lists.specs.inside.Writes.{Wrote};
ghost use Rattle.rows.specs.Receipts.{receipt_of, receipt_size};
ghost use Rattle.receipts.specs.Serving.{served, part_size};
ghost use Rattle.receipts.specs.Promises.{Begun, Finished, ServedPart};
ghost use Rattle.receipts.specs.inside.Taking.{PartTaken};

use copying::copy_bytes;
use refusals::{LIMIT, Refusal};
use rows::{Room, SHORT_RECEIPT};

// The bytes of a line that are kept: one more than a word has letters.
pub const LINE: usize = LIMIT + 1;

// The most bytes of the receipt of a line that is kept.
const LONG_RECEIPT: usize = SHORT_RECEIPT + 8 * LINE;

// The bytes of the header.
const HEADER_SIZE: usize = 34;

// The bytes of a part for which a buffer of OUTPUT bytes is long enough.
pub const PART: usize = 4096;

// The bytes that the receipts of a part of PART bytes need.
pub const OUTPUT: usize = PART * SHORT_RECEIPT + 8 * (PART + LINE);

// Behind a part: the number of the line that has begun, how many of its bytes are held, and the bytes of the receipts.
#[derive(Clone, Copy)]
pub struct Served {
    pub number: u64,
    pub held: usize,
    pub written: usize,
}

// The header, at the front of a buffer.
pub fn begin(out: &mut [u8]) -> Result<usize, Refusal>
    ensures { Begun out.old out.new result }
{
    if out.len() < HEADER_SIZE {
        return Err(Refusal::ShortBuffer);
    }
    Ok(copy_bytes(b"line letters carets length record\n", out))
}

// Whether a buffer is long enough for the receipts of a part.
fn is_enough(out: usize, part: usize) -> bool
    ensures { result ≡ not (nat_lt out (part_size part)) }
{
    out >= 8 * LINE && part <= (out - 8 * LINE) / (SHORT_RECEIPT + 8)
}

// The receipt of the bytes of a line that are held, at a place of a buffer that has room for it.
fn put_held(
    number: u64,
    line: &[u8],
    held: usize,
    out: &mut [u8],
    at: usize,
    room: &mut Room,
) -> usize
    requires { at + receipt_size (length (take held line.now)) ≤ length out.old }
    ensures { Wrote (receipt_of number (take held line.now)) out.old at
        out.new result }
{
    let kept = &line[..held.min(line.len())];
    at + rows::put_receipt(number, kept, &mut out[at..], room).unwrap()
}

// The receipts of the lines that end in a part, at the front of a buffer; each line is worked out where the one before
// it was, as that one left it.
fn serve_lines(
    part: &[u8],
    number: u64,
    held: usize,
    line: &mut [u8; LINE],
    out: &mut [u8],
    room: &mut Room,
) -> Served
    requires { part_size (length part.now) ≤ length out.old }
    ensures { PartTaken (served part.now number line.old held) out.old
        line.new out.new result }
{
    let mut at = 0;
    let mut taken = Served {
        number,
        held,
        written: 0,
    };
    // No `for`: each call of `feed` says where the next one begins.
    while at < part.len() {
        let fed = lines::feed(part, at, line, taken.held);
        at = fed.next;
        taken.held = fed.held;
        if fed.ended {
            taken.written = put_held(taken.number, line, taken.held, out, taken.written, room);
            taken.number = taken.number.wrapping_add(1);
            taken.held = 0;
        }
    }
    taken
}

// A part of the input, from the number of the line that has begun and the bytes of it that are held: the receipts of
// the lines that end in the part, at the front of the buffer. The memory in which lines are worked out is cleared once
// for all of them: to clear it for each would take longer than a short line.
pub fn serve(
    part: &[u8],
    number: u64,
    held: usize,
    line: &mut [u8; LINE],
    out: &mut [u8],
) -> Result<Served, Refusal>
    ensures { ServedPart part.now number held line.old out.old
        line.new out.new result }
{
    if !is_enough(out.len(), part.len()) {
        return Err(Refusal::ShortBuffer);
    }
    let mut room = Room::new();
    Ok(serve_lines(part, number, held, line, out, &mut room))
}

// Behind the last part: the receipt of a line that has no end, at the front of the buffer.
pub fn finish(number: u64, held: usize, line: &[u8; LINE], out: &mut [u8]) -> Result<usize, Refusal>
    ensures { Finished number held line.now out.old out.new result }
{
    if out.len() < LONG_RECEIPT {
        return Err(Refusal::ShortBuffer);
    }
    if held == 0 {
        return Ok(0);
    }
    let mut room = Room::new();
    Ok(put_held(number, line, held, out, 0, &mut room))
}
