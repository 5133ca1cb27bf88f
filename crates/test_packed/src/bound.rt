// The largest shapes: right comb and left spine with the most carets, one fewer and one more.
use crate::calls::{Call, Lent, Memory};
use cases::counts::Counts;
use cases::parts;
use cases::parts::BYTE;
use thompson::Answer;
use trees::MAX_CARETS;

// The nodes of a shape with the most carets, with one byte behind them, and the numbers that it takes.
const NODES: usize = 2 * MAX_CARETS + 1;

const BYTES: usize = NODES + 1;

const NUMBERS: usize = (NODES + 63) / 64;

// The calls on a packed shape in turn: the node or leaf of each, its refusal and its value.
const CALLS: [(Call, usize, u64, usize); 9] = [
    (Call::Before, 0, 0, 0),
    (Call::Before, NODES - 1, 0, MAX_CARETS),
    (Call::Before, NODES, 15, 0),
    (Call::End, 0, 0, NODES),
    (Call::End, NODES - 1, 0, NODES),
    (Call::End, NODES, 15, 0),
    (Call::Unpack, 0, 0, NODES),
    (Call::Grow, 0, 15, 0),
    (Call::Grow, MAX_CARETS, 15, 0),
];

// The two kinds of largest shapes.
#[derive(Clone, Copy)]
pub enum Kind {
    Comb,
    Spine,
}

impl Kind {
    // Whether node i of the shape of so many carets is one.
    fn has_caret(self, i: usize, carets: usize) -> bool {
        match self {
            Kind::Comb => i / 2 < carets && i % 2 == 0,
            Kind::Spine => i < carets,
        }
    }

    // The leaf at which the shape of a caret fewer grows to the largest: a comb at its last, a spine at its first.
    fn growing_leaf(self) -> usize {
        match self {
            Kind::Comb => MAX_CARETS - 1,
            Kind::Spine => 0,
        }
    }

    // The bytes of the shape of so many carets.
    fn put_shape(self, shape: &mut [u8], carets: usize) {
        for (i, x) in shape.iter_mut().enumerate() {
            *x = u8::from(self.has_caret(i, carets));
        }
    }

    // The shape of so many carets packed.
    fn pack(self, carets: usize, numbers: &mut [u64], summary: &mut [u16]) -> Answer {
        let mut shape = [BYTE; NODES + 2];
        let bytes = parts::front_mut(&mut shape, carets % NODES * 2 + 1);
        self.put_shape(bytes, carets);
        thompson::thompson_pack_shape(bytes, numbers, summary)
    }

    // Whether the bytes are those of the largest shape, and the byte behind is as it was.
    fn is_unpacked(self, shape: &[u8; BYTES]) -> bool {
        let mut told = [BYTE; BYTES];
        self.put_shape(parts::front_mut(&mut told, NODES), MAX_CARETS);
        *shape == told
    }

    // Whether growing the shape of a caret fewer gives the same.
    fn is_grown(self, largest: &Memory<BYTES, NUMBERS>) -> bool {
        let mut grown = Memory::<BYTES, NUMBERS>::new();
        self.pack(MAX_CARETS - 1, &mut grown.numbers, &mut grown.summary);
        let leaf = self.growing_leaf() as u64;
        let answer = thompson::thompson_grow_caret(&mut grown.numbers, &mut grown.summary, leaf);
        answer == told(0, NUMBERS)
            && grown.numbers == largest.numbers
            && grown.summary == largest.summary
    }
}

// The answer of a refusal's number and a value.
fn told(refusal: u64, value: usize) -> Answer {
    Answer {
        refusal,
        value: value as u64,
    }
}

// One more at the bound.
fn count(c: Counts, right: bool) -> Counts {
    c.after(right, b"at the bound\n")
}

// The calls on a packed shape, and how many answer as they are to.
fn call_all(c: Counts, memory: &mut Memory<BYTES, NUMBERS>) -> Counts {
    let mut d = c;
    let lent = Lent {
        shape: BYTES,
        numbers: NUMBERS,
        summary: NUMBERS,
    };
    for (call, asked, refusal, value) in CALLS {
        let answer = memory.call(call, asked as u64, lent);
        d = count(d, answer == told(refusal, value));
    }
    d
}

// The counts after the largest comb or spine: packed, one caret more refused, called, unpacked, grown from one fewer.
pub fn after(c: Counts, kind: Kind) -> Counts {
    let mut memory = Memory::<BYTES, NUMBERS>::new();
    let answer = kind.pack(MAX_CARETS, &mut memory.numbers, &mut memory.summary);
    let more = kind.pack(MAX_CARETS + 1, &mut [], &mut []);
    let mut d = count(c, answer == told(0, NUMBERS));
    d = count(d, more.refusal == 15);
    d = call_all(d, &mut memory);
    d = count(d, kind.is_unpacked(&memory.shape));
    count(d, kind.is_grown(&memory))
}
