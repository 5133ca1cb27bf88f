// An input, a word a line, to receipts on standard output: it reads, calls and writes; the crate `receipts` has the
// rest. It answers a status: 0 where every word was accepted, 1 where one was refused, 2 where the input cannot be
// read or the output cannot be written.
#![tactic(auto)]

use receipts::{LINE, OUTPUT, PART};
use refusals::Refusal;
use std::io::Read;

// The numbers of standard output and standard error, as the kit's writer takes them.
const STDOUT: i32 = 1;

const STDERR: i32 = 2;

// Behind a part: whether a word was refused (a flag: it stands whatever the rest is), and what is kept of the line that
// has begun.
#[derive(Clone, Copy)]
struct Turn {
    refused: bool,
    number: u64,
    held: usize,
}

// The input cannot be read or the output cannot be written, which was said, or a call gives nothing.
#[derive(Clone, Copy)]
struct Failed;

impl From<Refusal> for Failed {
    fn from(_refusal: Refusal) -> Failed {
        Failed
    }
}

// Says on standard error what went wrong.
fn complain(remark: &[u8]) {
    io::write_all(STDERR, remark);
}

// Whether receipts have that of a refused word: it has the letter r, and that of an accepted one has decimals, blanks
// and hexadecimal digits alone. Every byte is looked at, so that many are looked at at once, as numbers.
fn has_refused(receipts: &[u8]) -> bool {
    let found = receipts
        .iter()
        .fold(0, |found, &x| found | u8::from(x == b'r'));
    found == 1
}

// Writes the first n bytes of the output buffer, which are receipts: whether one is that of a refused word.
fn write(out: &[u8], n: usize) -> Result<bool, Failed> {
    let receipts = out.get(..n).ok_or(Failed)?;
    if !io::write_all(STDOUT, receipts) {
        complain(b"receipt: the output cannot be written\n");
        return Err(Failed);
    }
    Ok(has_refused(receipts))
}

// One part of the input: read, served and written; none at its end.
fn take_part<R: Read>(
    input: &mut R,
    part: &mut [u8],
    line: &mut [u8; LINE],
    out: &mut [u8],
    t: Turn,
) -> Result<Option<Turn>, Failed> {
    let Ok(n) = input.read(part) else {
        complain(b"receipt: the input cannot be read\n");
        return Err(Failed);
    };
    if n == 0 {
        return Ok(None);
    }
    let served = receipts::serve(&part[..n], t.number, t.held, line, out)?;
    let refused = write(out, served.written)?;
    Ok(Some(Turn {
        refused: t.refused | refused,
        number: served.number,
        held: served.held,
    }))
}

// All parts of the input, from a line number on. A proved loop has to end, and nothing says that an input does: the
// loop counts turns, to a number that no run uses up.
fn take_all<R: Read>(
    input: &mut R,
    from: u64,
    part: &mut [u8],
    line: &mut [u8; LINE],
    out: &mut [u8],
) -> Result<Turn, Failed> {
    let mut t = Turn {
        refused: false,
        number: from,
        held: 0,
    };
    for _ in 0..u64::MAX {
        match take_part(input, part, line, out, t)? {
            Some(next) => t = next,
            None => break,
        }
    }
    Ok(t)
}

// The receipts of all parts, numbered from a number on, then that of a line that has no end, with the header in front
// where that number is 1: whether a word was refused.
fn receive<R: Read>(input: &mut R, from: u64) -> Result<bool, Failed> {
    let mut part = [0u8; PART];
    let mut line = [0u8; LINE];
    let mut out = [0u8; OUTPUT];
    if from == 1 {
        let n = receipts::begin(&mut out)?;
        write(&out, n)?;
    }
    let end = take_all(input, from, &mut part, &mut line, &mut out)?;
    let n = receipts::finish(end.number, end.held, &line, &mut out)?;
    Ok(write(&out, n)? | end.refused)
}

// The receipts of an input: their status.
pub fn run<R: Read>(input: &mut R, from: u64) -> u8 {
    match receive(input, from) {
        Ok(refused) => u8::from(refused),
        Err(_) => 2,
    }
}

// The receipt program: its status.
pub fn receipt_status<R: Read>(input: &mut R) -> u8 {
    run(input, 1)
}
