// Nodes of shapes in rows of numbers, 64 to a number, the first node in the lowest bit.
#![tactic(auto)]

ghost use Rattle.std.specs.Prelude.{◌≡◌, ◌%◌, ◌≤◌, ◌<◌, ◌^◌, unwrap_or};
ghost use Rattle.std.specs.Int.Count.{ones};
ghost use Rattle.bitrows.specs.inside.Growth.{opened_number, carried_number, FoundLeaf};

use refusals::NodeNumber;

mod bytes;
mod table;
pub mod walk;

// The nodes of a number.
pub const NODES: usize = 64;

// The bit of a node in its number.
fn bit_of(node: NodeNumber) -> usize
    ensures { result ≡ node.0 % 64 }
{
    node.0 % NODES
}

// The bits below that of a node.
fn below(x: u64, node: NodeNumber) -> u64
    ensures { result ≡ x % 2 ^ (node.0 % 64) }
{
    x % (1u64 << bit_of(node))
}

// The carets before a node in its own number x: the count of ones of the masked number.
pub fn carets_below(x: u64, node: NodeNumber) -> u32
    ensures value { result ≡ ones (x % 2 ^ (node.0 % 64)) }
    ensures upper_bound { result ≤ 64 }
{
    let k = bit_of(node);
    (x & ((1u64 << k) - 1)).count_ones()
}

// The node of leaf k of the nodes in the number x, where it has such a leaf.
pub fn find_leaf(x: u64, k: usize) -> Option<usize>
    ensures { FoundLeaf x k (unwrap_or result 64) }
{
    (0..NODES).filter(|&node| (x >> node) % 2 == 0).nth(k)
}

// The same; the number of nodes where it has no such leaf.
pub fn leaf_at(x: u64, k: usize) -> usize
    ensures { FoundLeaf x k result }
{
    find_leaf(x, k).unwrap_or(NODES)
}

// The number x with a caret and a leaf in front of a node: those behind it go two bits up.
pub fn opened(x: u64, node: NodeNumber) -> u64
    ensures { result ≡ opened_number x (node.0 % 64) }
{
    let low = below(x, node);
    low + ((1u64 << bit_of(node)) + ((x - low) << 2))
}

// The two nodes that then go on to the next number.
pub fn carried(x: u64, node: NodeNumber) -> u64
    ensures { result ≡ carried_number x (node.0 % 64) }
{
    (x - below(x, node)) >> 62
}
