// A caret grown in place: a caret and a leaf are put in front of the leaf's node, and the nodes behind go two bits on.
ghost use Rattle.std.specs.Prelude.{◌≡◌, ◌<◌, ◌≤◌, cond, length, get_or, ltb};
ghost use Rattle.bitrows.specs.inside.Growth.{LeafAt};
ghost use Rattle.packed.specs.inside.Steps.{shape_of};
ghost use Rattle.growing.specs.inside.Steps.{Few, HoldsLeaf, HeldLeaf, Growable, GrewAt};

use bitrows::{NODES, carried, find_leaf, opened};
use packed::checking::numbers_of;
use refusals::{LeafNumber, NodeNumber};

// The number that holds a leaf: before number j stand 64 j nodes less the carets that the summary counts.
fn number_of_leaf(summary: &[u16], n: usize, leaf: LeafNumber) -> usize
    requires few { Few summary.now n }
    requires n_nonzero { 0 < n }
    requires n_in_bounds { n ≤ length summary.now }
    requires n_bound { n ≤ 4294967295 }
    ensures { HoldsLeaf summary.now n leaf.0 result }
{
    let k = usize::from(leaf.0);
    for j in 0..n - 1 {
        if k < NODES * (j + 1) - usize::from(summary[j + 1]) {
            return j;
        }
    }
    n - 1
}

// The node of a leaf of a packed shape with so many nodes. With `Packed` in place of the two slices, which the caller
// lends to be written, the borrow checker covers no such call.
pub fn leaf_node(numbers: &[u64], summary: &[u16], nodes: usize, leaf: LeafNumber) -> NodeNumber
    requires { HeldLeaf numbers.now summary.now nodes leaf.0 }
    ensures { LeafAt (shape_of numbers.now nodes) leaf.0 result.0 }
{
    let j = number_of_leaf(summary, numbers_of(nodes), leaf);
    let before = NODES * j - usize::from(summary[j]);
    NodeNumber(NODES * j + find_leaf(numbers[j], usize::from(leaf.0) - before).unwrap())
}

// A number of the shape; there is none behind those used.
fn used_number(numbers: &[u64], used: usize, j: usize) -> u64
    requires { used ≤ length numbers.now }
    ensures { result ≡ cond (ltb j used) (get_or numbers.now j 0) 0 }
{
    if j < used { numbers[j] } else { 0 }
}

// A caret and a leaf put in front of a leaf's node: its number is opened there, each later one goes on with the two
// nodes that the one before hands it.
pub fn insert(numbers: &mut [u64], summary: &mut [u16], nodes: usize, node: NodeNumber)
    requires { Growable numbers.old summary.old nodes node.0 }
    ensures { GrewAt numbers.old summary.old nodes node.0
        numbers.new summary.new }
{
    let used = numbers_of(nodes);
    let end = numbers_of(nodes + 2);
    let from = node.0 / NODES;
    let first = numbers[from];
    let mut carry = carried(first, node);
    let grown = opened(first, node);
    numbers[from] = grown;
    let mut count = summary[from] + grown.count_ones() as u16;
    for j in from + 1..end {
        let x = used_number(numbers, used, j);
        let y = carry + (x << 2);
        numbers[j] = y;
        summary[j] = count;
        count += y.count_ones() as u16;
        carry = x >> 62;
    }
}
