// The receipts of an input that comes in parts.
use crate::printed;
use crate::reading::Given;
use cases::parts::BYTE;
use cases::{counts, parts};
use receipts::{LINE, OUTPUT, Served};
use refusals::Refusal;
use thompson::Answer;

// The bytes of the line that has begun, the output buffer with how much of it is lent, and what was served last.
#[derive(Clone, Copy)]
struct Run {
    line: [u8; LINE],
    out: [u8; OUTPUT],
    lent: usize,
    served: Served,
}

impl Run {
    // A refusal, and what is in the output buffer.
    fn refuse(&self, r: Refusal) {
        printed::answer(Answer::from(r));
        printed::buffer(&self.out);
        counts::print_text(b"\n");
    }

    // What a call put at the front of the output buffer.
    fn show(&self, answer: Result<usize, Refusal>) {
        match answer {
            Ok(n) => counts::print_text(parts::front(&self.out, n)),
            Err(r) => self.refuse(r),
        }
    }

    // The header.
    fn begin(&mut self) {
        let answer = receipts::begin(parts::front_mut(&mut self.out, self.lent));
        self.show(answer);
    }

    // The receipts of a part.
    fn take(&mut self, part: &[u8]) {
        let Served { number, held, .. } = self.served;
        let out = parts::front_mut(&mut self.out, self.lent);
        match receipts::serve(part, number, held, &mut self.line, out) {
            Ok(served) => {
                counts::print_text(parts::front(&self.out, served.written));
                self.served = served;
            }
            Err(r) => self.refuse(r),
        }
    }

    // The receipt of an unended last line.
    fn finish(&mut self) {
        let Served { number, held, .. } = self.served;
        let out = parts::front_mut(&mut self.out, self.lent);
        let answer = receipts::finish(number, held, &self.line, out);
        self.show(answer);
    }
}

// The receipts of an input in parts of as many bytes as the first size says, with so much of the output buffer lent as
// the third says; at the start the second is the number of the line, and so many of its bytes are held.
pub fn receipts(input: Given, held: usize) {
    let size = input.lent.b;
    let mut run = Run {
        line: [BYTE; LINE],
        out: [BYTE; OUTPUT],
        lent: input.lent.out,
        served: Served {
            number: input.lent.a as u64,
            held,
            written: 0,
        },
    };
    run.begin();
    for part in input.bytes.chunks(size.max(1)) {
        run.take(parts::front(part, size));
    }
    run.finish();
}
