// A run of filings from a fresh register, against a plain list that the program keeps. A line has a word, the sizes of
// what is lent, and the holder, and may have a name behind a bar. A letter is printed for each: n where the list has a
// new entry, o an old one, h where the holder is full, f where the register is, w where the word is refused.
use crate::answers::Told;
use crate::calling::Filing;
use crate::filing::{HOLDER_FULL, REGISTER_FULL, Run, SIZE};
use crate::{calling, odd};
use cases::counts::Counts;
use cases::fields::field;
use cases::{counts, fields, parts};
use updates::Entered;

// The most letters of a word.
const LETTERS: usize = 80;

// The letter of an answer.
fn letter(told: Told) -> u8 {
    match told {
        Ok(Entered::New(..)) => b'n',
        Ok(Entered::Present(..)) => b'o',
        Err(refused) if refused == HOLDER_FULL => b'h',
        Err(refused) if refused == REGISTER_FULL => b'f',
        Err(_) => b'w',
    }
}

// The filing of a line; one that the list did not foretell is printed.
fn file(line: &[u8], run: &mut Run, register: &mut [u8], c: Counts) -> Counts {
    let mut word = [0u8; LETTERS];
    let n = fields::bytes(field(line, 1), &mut word);
    let filing = Filing::of(line, parts::front(&word, n));
    let (is_right, told) = run.file(filing, register);
    let d = c.after(is_right, line);
    counts::print_text(&[letter(told)]);
    d
}

// The live entries of all 65,536 holders.
fn live_sum(register: &[u8]) -> u64 {
    let mut sum = 0u64;
    for holder in 0..=u16::MAX {
        sum = sum.wrapping_add(calling::live_of(register, holder));
    }
    sum
}

// The filings of a text, one after the other, that were answered as the list says, and one more if the end is right.
pub fn filings(text: &[u8]) -> Counts {
    let mut register = [0u8; SIZE];
    fields::bytes(b"10000400000000", &mut register);
    let mut run = Run::new();
    let mut c = Counts::default();
    for line in text.split_inclusive(|&x| x == b'\n') {
        if line.starts_with(b"r") {
            c = file(line, &mut run, &mut register, c);
        }
    }
    counts::print_text(b"\n");
    let ends_right = odd::checked(&register) == 0 && live_sum(&register) == run.list.count() as u64;
    c.after(ends_right, b"the end of the run\n")
}
