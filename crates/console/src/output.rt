// Answers in a buffer until they are written, and the status of what was written.
use crate::texts::{STDOUT, tell};
use commands::digits::front;
use commands::{ANSWER, Answer};

// The bytes of the buffer.
const OUTPUT: usize = 262144;

// Where more bytes are held than these, another answer may not fit.
const MOST_HELD: usize = OUTPUT - ANSWER;

// The input cannot be read, or the output cannot be written; standard error says which.
#[derive(Clone, Copy, Debug, PartialEq, Eq)]
pub struct Failed;

// The answers that are not written yet, and whether something was refused so far (a flag: it stands whatever the rest
// is). No Vec: memory is fixed.
#[derive(Drop)]
pub struct Output {
    held: [u8; OUTPUT],
    used: usize,
    pub refused: bool,
}

// Writes bytes, and says where that fails.
pub fn write(bytes: &[u8]) -> Result<(), Failed> {
    if io::write_all(STDOUT, bytes) {
        return Ok(());
    }
    tell(b"thompsonf: the output cannot be written\n");
    Err(Failed)
}

impl Output {
    // Nothing yet.
    pub fn new() -> Output {
        Output {
            held: [0; OUTPUT],
            used: 0,
            refused: false,
        }
    }

    // Writes what is held.
    pub fn flush(&mut self) -> Result<(), Failed> {
        let used = self.used;
        self.used = 0;
        write(front(&self.held, used))
    }

    // Puts an answer behind those that are held; they are written first where it may not fit. Inlined, so that the
    // compiler sees both buffers and copies in one piece.
    #[inline(always)]
    pub fn keep(
        &mut self,
        answer: &[u8; ANSWER],
        said: Result<Answer, Failed>,
    ) -> Result<(), Failed> {
        let a = said?;
        if self.used > MOST_HELD {
            self.flush()?;
        }
        self.used = printing::put(front(answer, a.bytes), &mut self.held, self.used);
        self.refused = self.refused || a.refused;
        Ok(())
    }
}

// The status of a run, by whether something was refused; a number, since it is what the program exits with.
pub fn status(refused: Result<bool, Failed>) -> u8 {
    match refused {
        Ok(false) => 0,
        Ok(true) => 1,
        Err(Failed) => 2,
    }
}

// Writes one answer, alone; whether it is a refusal.
fn write_one(answer: &[u8; ANSWER], said: Result<Answer, Failed>) -> Result<bool, Failed> {
    let a = said?;
    write(front(answer, a.bytes))?;
    Ok(a.refused)
}

// Writes one answer, alone: the status.
pub fn write_answer(answer: &[u8; ANSWER], said: Result<Answer, Failed>) -> u8 {
    status(write_one(answer, said))
}
