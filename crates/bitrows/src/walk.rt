// The walk over packed nodes: by whole numbers where more subtrees are to come than a number can close, else by bytes
// through a table, else node by node.
ghost use Rattle.std.specs.Prelude.{◌≡◌, ◌%◌, ◌<◌};
ghost use Rattle.bitrows.specs.inside.Walking.{Pending, Reach, walk_end_value, Walked};

use crate::NODES;
use crate::bytes::{BYTE, Bytes};
use refusals::NodeNumber;
use trees::MAX_CARETS;

// The numbers that a tree within the bound can take.
pub const NUMBERS: usize = (2 * MAX_CARETS + 1 + NODES - 1) / NODES;

// How far a walk has come: the node that it has reached, and the subtrees to come.
#[derive(Clone, Copy)]
pub struct Walk {
    pub at: usize,
    pub pending: usize,
}

impl Walk {
    // A whole number.
    fn pass_number(self, x: u64) -> Walk
        requires pending { Pending self }
        requires at_value { self.at % 64 ≡ 0 }
        requires lt_pending { 64 < self.pending }
        ensures reach { Reach x self result }
        ensures at_lt_at { self.at < result.at }
    {
        Walk {
            at: self.at + NODES,
            pending: self.pending + 2 * x.count_ones() as usize - NODES,
        }
    }

    // Node by node, to the next byte or to the close.
    fn pass_nodes(self, x: u64) -> Walk
        requires { Pending self }
        ensures reach { Reach x self result }
        ensures at_lt_at { self.at < result.at }
    {
        let mut pending = self.pending;
        let mut rest = x >> (self.at % NODES);
        let end = self.at - self.at % BYTE + BYTE;
        for at in self.at..end {
            if pending == 0 {
                return Walk { at, pending };
            }
            pending = pending + 2 * (rest % 2) as usize - 1;
            rest /= 2;
        }
        Walk { at: end, pending }
    }

    // As many bytes of the number x as can be passed at once, else nodes.
    fn step(self, bytes: &Bytes, x: u64) -> Walk
        requires { Pending self }
        ensures reach { Reach x self result }
        ensures at_lt_at { self.at < result.at }
    {
        if self.at % BYTE == 0 {
            let w = self.pass_bytes(bytes, x);
            if self.at < w.at {
                return w;
            }
        }
        self.pass_nodes(x)
    }
}

// How many nodes a walk may pass: those of the numbers that are there and that a tree within the bound can take.
fn walk_end(numbers: &[u64]) -> usize
    ensures { result ≡ walk_end_value numbers.now }
{
    NODES * numbers.len().min(NUMBERS)
}

// From a node on, to where its subtree closes or to the end. A `while`: a step passes some bytes or some nodes.
pub fn walk_from(numbers: &[u64], from: NodeNumber) -> Walk
    ensures { Walked numbers.now from.0 result }
{
    let bytes = Bytes::new();
    let end = walk_end(numbers);
    let mut w = Walk {
        at: from.0,
        pending: 1,
    };
    while w.pending > 0 && w.at < end {
        w = w.step(&bytes, numbers[w.at / NODES]);
        // Whole numbers by a loop of their own: in a step, each took twice the instructions, and a time that hung on
        // where its jumps came to lie.
        while w.pending > NODES && w.at % NODES == 0 && w.at < end {
            w = w.pass_number(numbers[w.at / NODES]);
        }
    }
    w
}
