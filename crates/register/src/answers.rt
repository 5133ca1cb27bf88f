// The answers to the lines of an input, in a buffer until they are written.
use refusals::Refusal;
use updates::Entered;

// The bytes of the buffer.
pub const OUTPUT: usize = 524288;

// The most bytes of an answer: three numbers, a word and four bytes between and behind them.
pub const ANSWER: usize = 3 * 20 + 7 + 4;

// A word, a number and the end of the line.
fn put_last(word: &[u8], n: u64, out: &mut [u8; OUTPUT], at: usize) -> usize {
    let named = printing::put(word, out, at);
    let numbered = printing::put_decimal(n, out, named);
    printing::put(b"\n", out, numbered)
}

// The number and the place of a refusal.
fn put_refusal(r: Refusal, out: &mut [u8; OUTPUT], at: usize) -> usize {
    let named = printing::put(b" refused ", out, at);
    let numbered = printing::put_decimal(r.number() as u64, out, named);
    put_last(b" ", r.place() as u64, out, numbered)
}

// What became of a word.
fn put_entered(entered: Result<Entered, Refusal>, out: &mut [u8; OUTPUT], at: usize) -> usize {
    match entered {
        Ok(Entered::New(n, _)) => put_last(b" new ", n as u64, out, at),
        Ok(Entered::Present(n, _)) => put_last(b" present ", n as u64, out, at),
        Err(r) => put_refusal(r, out, at),
    }
}

// The answer to a line: its number and what became of its word.
pub fn put(
    number: u64,
    entered: Result<Entered, Refusal>,
    out: &mut [u8; OUTPUT],
    at: usize,
) -> usize {
    let numbered = printing::put_decimal(number, out, at);
    put_entered(entered, out, numbered)
}
