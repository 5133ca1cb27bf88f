// A list done word by word: a call for each line, with the tables as the call before left them.
use crate::memory::Memory;
use cases::parts;
use cases::parts::BYTE;
use thompson::Answer;

// The bytes of a record buffer for a word of full length.
const RECORD: usize = 16390;

// The item of a refused word.
fn put_refusal(out: &mut [u8], at: usize, refused: Answer) -> usize {
    let number = (refused.refusal % 256) as u8;
    let [high, low] = ((refused.value % 65536) as u16).to_be_bytes();
    parts::put_all(out, at, &[0x0F, 0, 3, number, high, low])
}

// The item of a word, whose record is made in a buffer of its own. The place behind.
fn put_item(word: &[u8], memory: &mut Memory, at: usize) -> usize {
    let mut record = [BYTE; RECORD];
    let lent = parts::front_mut(&mut record, word.len() % RECORD * 4 + 6);
    let answer = thompson::thompson_word_to_record(word, &mut memory.b, &mut memory.a, lent);
    if answer.refusal != 0 {
        return put_refusal(&mut memory.out, at, answer);
    }
    parts::put_all(
        &mut memory.out,
        at,
        parts::front(&record, answer.value as usize),
    )
}

// The items of all lines. The number of bytes written.
pub fn put_items(list: &[u8], memory: &mut Memory) -> usize {
    let mut written = 0;
    for line in list.split_inclusive(|&x| x == b'\n') {
        let word = line.strip_suffix(b"\n").unwrap_or(line);
        written = put_item(word, memory, written);
    }
    written
}
