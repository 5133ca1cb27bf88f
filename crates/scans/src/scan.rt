// The scan: the columns of a pair of trees from caret 1 on, by blocks.
ghost use Rattle.std.specs.Prelude.{◌≡◌, ◌≤◌, ◌<◌};
ghost use Rattle.trees.specs.Building.{tree_of};
ghost use Rattle.trees.specs.Pairs.{max_carets};
ghost use Rattle.lengths.specs.Weights.{pair_length};
ghost use Rattle.scans.specs.inside.Steps.{start_side, PairOfTables, BlockAhead, BlockEnd, BlockScanned};

use crate::columns::{State, exponent};
use crate::labels::Labels;
use crate::sides::Side;
use crate::table::Tally;
use refusals::LeafNumber;
use trees::zeros::{BLOCK, known_zeros};

// The leaf that the scan has reached: it is behind the caret of the next column.
#[derive(Drop)]
pub struct Place {
    pub leaf: LeafNumber,
    pub state: State,
}

// A tree at caret 1: the exponent of leaf 1 is open over it, that of leaf 0 is to come on the left side.
fn side_at_one(e: &[u16]) -> Side
    ensures { result ≡ start_side e.now }
{
    Side {
        subtrees: exponent(e, LeafNumber(1)) as usize,
        lefts: exponent(e, LeafNumber(0)) as usize,
    }
}

// Where the columns from a leaf on that are weighed one by one end: a block, or what is left of the n carets.
fn block_end(leaf: LeafNumber, n: usize) -> LeafNumber
    requires leaf_le_n { leaf.0 ≤ n }
    requires n_le_max_carets { n ≤ max_carets }
    ensures { BlockEnd leaf.0 n result.0 }
{
    let i = leaf.0 as usize;
    if n - i < BLOCK {
        return LeafNumber((n + 1) as u16);
    }
    LeafNumber((i + BLOCK) as u16)
}

// A block of columns, or all that are known to have no exponent behind them.
fn scan_block(labels: &Labels, b: &[u16], a: &[u16], n: usize, p: Place) -> Place
    requires { BlockAhead b.now a.now n p }
    ensures { BlockScanned b.now a.now n p result }
{
    let i = p.leaf.0 as usize;
    let zeros = known_zeros(b, i, known_zeros(a, i, n + 1 - i));
    if zeros > 0 {
        return Place {
            leaf: LeafNumber((i + zeros) as u16),
            state: p.state.zero_columns(labels, zeros),
        };
    }
    let stop = block_end(p.leaf, n);
    Place {
        leaf: stop,
        state: p.state.plain_columns(labels, b, a, p.leaf, stop),
    }
}

// The length of the smallest pair with the exponents of two tables, which has n carets: the sum over carets 1 to n − 1.
pub fn scan(b: &[u16], a: &[u16], n: usize) -> usize
    requires n_nonzero { 0 < n }
    requires pair_of_tables { PairOfTables b.now a.now n }
    ensures { result ≡ pair_length (tree_of n a.now) (tree_of n b.now) }
{
    let labels = Labels::new();
    let mut p = Place {
        leaf: LeafNumber(2),
        state: State {
            minus: side_at_one(a),
            plus: side_at_one(b),
            tally: Tally { sum: 0, pending: 0 },
        },
    };
    // No `for`: each block says where the next begins.
    while p.leaf.0 as usize <= n {
        p = scan_block(&labels, b, a, n, p);
    }
    p.state.tally.sum as usize
}
