// Byte shapes packed.
ghost use Rattle.std.specs.Prelude.{◌≡◌, ◌-◌, min, length, take, drop};
ghost use Rattle.lists.specs.Tables.{filled};
ghost use Rattle.bitrows.specs.Numbers.{pack_number_value, number_at, numbers_of_value};
ghost use Rattle.packed.specs.Packing.{summary_at};
ghost use Rattle.packed.specs.inside.Steps.{is_tree_value, FewNodes, Room};

use crate::checking::numbers_of;
use bitrows::NODES;
use trees::MAX_CARETS;

// Whether bytes are the shape of a tree within the bound: each caret has two subtrees to come, each leaf ends one.
pub fn is_tree(shape: &[u8]) -> bool
    ensures { result ≡ is_tree_value shape.now }
{
    if 2 * MAX_CARETS + 1 < shape.len() {
        return false;
    }
    let mut pending = 1;
    for &node in shape {
        if pending == 0 || node > 1 {
            return false;
        }
        pending = pending + 2 * usize::from(node) - 1;
    }
    pending == 0
}

// How many nodes a number holds that begins at a place of a shape.
fn nodes_from(nodes: usize, from: usize) -> usize
    ensures { result ≡ min (nodes - from) 64 }
{
    nodes.saturating_sub(from).min(NODES)
}

// The number of the nodes from a place of a shape on: the last node first, each one bit higher than the one before.
fn pack_number(shape: &[u8], from: usize) -> u64
    requires { FewNodes shape.now }
    ensures { result ≡ pack_number_value (take 64 (drop from shape.now)) }
{
    let mut x = 0;
    for k in (0..nodes_from(shape.len(), from)).rev() {
        x = 2 * x + u64::from(shape[from + k]);
    }
    x
}

// The numbers of a shape, each with the carets in those before it.
pub fn put_numbers(shape: &[u8], numbers: &mut [u64], summary: &mut [u16])
    requires few_nodes { FewNodes shape.now }
    requires room { Room (numbers_of_value (length shape.now)) numbers.old summary.old }
    ensures numbers_after { numbers.new ≡ filled (numbers_of_value (length shape.now))
        (number_at shape.now) numbers.old }
    ensures summary_after { summary.new ≡ filled (numbers_of_value (length shape.now))
        (summary_at shape.now) summary.old }
{
    let n = numbers_of(shape.len());
    let mut count = 0;
    for j in 0..n {
        let x = pack_number(shape, NODES * j);
        numbers[j] = x;
        summary[j] = count;
        count += x.count_ones() as u16;
    }
}
