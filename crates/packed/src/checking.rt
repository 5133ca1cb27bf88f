// Whether numbers and a summary are those of a tree within the bound.
ghost use Rattle.std.specs.Prelude.{◌≡◌, true, ◌≤◌, length};
ghost use Rattle.refusals.specs.Outcomes.{reply_of, valued};
ghost use Rattle.bitrows.specs.Numbers.{numbers_of_value};
ghost use Rattle.packed.specs.Packing.{packs, tree_shape, shape_in, packed_shape};
ghost use Rattle.packed.specs.inside.Steps.{shape_of, Wide, Clear, Summed, Within};

use bitrows::NODES;
use bitrows::walk::walk_from;
use refusals::{NodeNumber, Refusal};
use trees::MAX_CARETS;

// The numbers that some nodes take.
pub fn numbers_of(nodes: usize) -> usize
    ensures { result ≡ numbers_of_value nodes }
{
    nodes.div_ceil(NODES)
}

// The nodes of the tree that the numbers begin with.
fn tree_nodes(numbers: &[u64]) -> Result<usize, Refusal>
    ensures { reply_of result ≡ valued length (tree_shape (shape_in numbers.now)) }
{
    let w = walk_from(numbers, NodeNumber(0));
    if w.pending > 0 || 2 * MAX_CARETS + 1 < w.at {
        return Err(Refusal::NotTree);
    }
    Ok(w.at)
}

// Whether the unused bits of the last number are zero.
fn is_clear(numbers: &[u64], nodes: usize) -> bool
    requires { Within numbers.now nodes }
    ensures clear { result ≡ true → Clear numbers.now nodes }
    ensures value { Clear numbers.now nodes → result ≡ true }
    ensures wide { Wide numbers.now }
{
    let last = nodes - 1;
    (numbers[last / NODES] >> (last % NODES)) >> 1 == 0
}

// A packed shape as it is lent to be read: its numbers, and for each the carets in those before it. What writes them
// takes the two slices, as C lends them.
#[derive(Clone, Copy)]
pub struct Packed<'a> {
    pub numbers: &'a [u64],
    pub summary: &'a [u16],
}

impl Packed<'_> {
    // Whether the first n entries of the summary count the ones of the numbers before them.
    fn is_summed(self, n: usize) -> bool
        requires n_in_bounds { n ≤ length self.numbers.now }
        requires n_in_bounds_2 { n ≤ length self.summary.now }
        requires n_bound { n ≤ 4294967295 }
        ensures summed { result ≡ true → Summed self.entry.numbers.now self.entry.summary.now n }
        ensures value { Summed self.entry.numbers.now self.entry.summary.now n → result ≡ true }
    {
        let mut count = 0;
        for j in 0..n {
            if usize::from(self.summary[j]) != count {
                return false;
            }
            count += self.numbers[j].count_ones() as usize;
        }
        true
    }

    // Whether so many nodes of the numbers are packed, with their summary.
    fn is_packed(self, nodes: usize) -> bool
        requires { Within self.numbers.now nodes }
        ensures { result ≡ packs (shape_of self.entry.numbers.now nodes)
            self.entry.numbers.now self.entry.summary.now }
    {
        let n = numbers_of(nodes);
        if self.summary.len() < n {
            return false;
        }
        if !is_clear(self.numbers, nodes) {
            return false;
        }
        self.is_summed(n)
    }

    // The nodes of a packed shape, or refusal 15.
    pub fn check(self) -> Result<usize, Refusal>
        ensures { reply_of result
            ≡ valued length (packed_shape self.entry.numbers.now self.entry.summary.now) }
    {
        let nodes = tree_nodes(self.numbers)?;
        if !self.is_packed(nodes) {
            return Err(Refusal::NotTree);
        }
        Ok(nodes)
    }
}
