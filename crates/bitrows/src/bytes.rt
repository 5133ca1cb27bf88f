// Eight nodes at a time: for each byte, its carets and how far it falls.
ghost use Rattle.std.specs.Prelude.{◌≡◌, ◌%◌};
ghost use Rattle.lists.specs.Entries.{total};
ghost use Rattle.bitrows.specs.Numbers.{bits_of};
ghost use Rattle.bitrows.specs.inside.Walking.{fall, ByteTable, Pending, Reach};

use crate::NODES;
use crate::table::BYTES;
use crate::walk::Walk;

// The nodes of a byte.
pub const BYTE: usize = 8;

// What the nodes of a byte do to a walk: their carets, and the most that the first of them close more than they open.
#[derive(Clone, Copy)]
struct Tally {
    carets: usize,
    fall: usize,
}

// The table of bytes, as a walk holds it.
#[derive(Clone, Copy)]
pub struct Bytes {
    entries: [u8; 256],
    ghost byte_table: { ByteTable entries },
}

impl Bytes {
    // A copy of the constant, once a walk: one that is indexed in a loop would be copied there at each turn.
    pub fn new() -> Bytes {
        Bytes { entries: BYTES }
    }

    // The tally of the lowest byte of a number.
    fn tally(&self, x: u64) -> Tally
        ensures carets { result.carets ≡ total (bits_of 8 x) }
        ensures fall { result.fall ≡ fall (bits_of 8 x) }
    {
        let entry = self.entries[(x % 256) as usize] as usize;
        Tally {
            carets: entry / 16,
            fall: entry % 16,
        }
    }
}

impl Walk {
    // The bytes of a number from a byte's start on, as long as they close fewer subtrees than are to come.
    pub fn pass_bytes(self, bytes: &Bytes, x: u64) -> Walk
        requires pending { Pending self }
        requires at_value { self.at % 8 ≡ 0 }
        ensures { Reach x self result }
    {
        let mut w = self;
        let mut rest = x >> (w.at % NODES);
        let end = w.at - w.at % NODES + NODES;
        // A `for` over `(w.at..end).step_by(BYTE)` was tried: on a comb the walk takes a sixth longer.
        while w.at < end {
            let byte = bytes.tally(rest);
            if w.pending <= byte.fall {
                return w;
            }
            w.pending = w.pending + 2 * byte.carets - BYTE;
            w.at += BYTE;
            rest >>= BYTE;
        }
        w
    }
}
