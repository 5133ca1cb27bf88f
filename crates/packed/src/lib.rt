// Shapes packed 64 nodes to a number, with a summary of the carets before each number.
#![tactic(auto)]

ghost use Rattle.refusals.specs.Outcomes.{reply_of};
ghost use Rattle.refusals.specs.Placing.{Placed};
ghost use Rattle.trees.specs.Shapes.{subtree_end_value};
ghost use Rattle.packed.specs.Packing.{carets_before_value};
ghost use Rattle.packed.specs.Answers.{node_end_of};
ghost use Rattle.packed.specs.Promises.{packing, unpacking, Repacked, AnswersNode};

use bitrows::walk::walk_from;
use bitrows::{NODES, carets_below};
use checking::{Packed, numbers_of};
use refusals::{NodeNumber, Refusal};

pub mod checking;
mod packing;
mod unpacking;

// The numbers and the summary of a byte shape; answers how many numbers it takes.
pub fn pack_shape(shape: &[u8], numbers: &mut [u64], summary: &mut [u16]) -> Result<usize, Refusal>
    ensures { Repacked (packing shape.now numbers.old summary.old)
        numbers.old summary.old numbers.new summary.new result }
{
    if !packing::is_tree(shape) {
        return Err(Refusal::NotTree);
    }
    let n = numbers_of(shape.len());
    if numbers.len() < n || summary.len() < n {
        return Err(Refusal::ShortBuffer);
    }
    packing::put_numbers(shape, numbers, summary);
    Ok(n)
}

// The byte shape of a packed one; answers how many bytes it has.
pub fn unpack_shape(numbers: &[u64], summary: &[u16], shape: &mut [u8]) -> Result<usize, Refusal>
    ensures { Placed (unpacking numbers.now summary.now shape.old)
        shape.old shape.new result }
{
    let nodes = Packed { numbers, summary }.check()?;
    if shape.len() < nodes {
        return Err(Refusal::ShortBuffer);
    }
    unpacking::put_nodes(numbers, nodes, shape);
    Ok(nodes)
}

// The carets before a node: the count of ones of the masked number of the node, added to the summary.
pub fn carets_before(numbers: &[u64], summary: &[u16], node: NodeNumber) -> Result<usize, Refusal>
    ensures { AnswersNode (λ s. carets_before_value s node.0) numbers.now summary.now
        node.0 (reply_of result) }
{
    let nodes = Packed { numbers, summary }.check()?;
    let k = node.0;
    if nodes <= k {
        return Err(Refusal::NotTree);
    }
    let j = k / NODES;
    Ok(usize::from(summary[j]) + carets_below(numbers[j], node) as usize)
}

// Where the subtree of a node ends: the number of the node just behind its last.
pub fn subtree_end(
    numbers: &[u64],
    summary: &[u16],
    node: NodeNumber,
) -> Result<NodeNumber, Refusal>
    ensures { AnswersNode (λ s. subtree_end_value s node.0) numbers.now summary.now
        node.0 (node_end_of result) }
{
    let nodes = Packed { numbers, summary }.check()?;
    let k = node.0;
    if nodes <= k {
        return Err(Refusal::NotTree);
    }
    Ok(NodeNumber(walk_from(numbers, node).at))
}
