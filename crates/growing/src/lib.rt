// A caret grown in a packed shape.
#![tactic(auto)]

ghost use Rattle.packed.specs.Promises.{growing, Repacked};

use packed::checking::{Packed, numbers_of};
use refusals::{LeafNumber, Refusal};
use trees::MAX_CARETS;

mod inserting;

// A caret and two leaves in place of a leaf; answers how many numbers the grown shape takes.
pub fn grow_caret(
    numbers: &mut [u64],
    summary: &mut [u16],
    leaf: LeafNumber,
) -> Result<usize, Refusal>
    ensures { Repacked (growing numbers.old summary.old leaf.0)
        numbers.old summary.old numbers.new summary.new result }
{
    let nodes = Packed { numbers, summary }.check()?;
    if nodes <= 2 * usize::from(leaf.0) || 2 * MAX_CARETS < nodes {
        return Err(Refusal::NotTree);
    }
    let n = numbers_of(nodes + 2);
    if numbers.len() < n || summary.len() < n {
        return Err(Refusal::ShortBuffer);
    }
    let node = inserting::leaf_node(numbers, summary, nodes, leaf);
    inserting::insert(numbers, summary, nodes, node);
    Ok(n)
}
