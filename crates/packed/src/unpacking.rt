// Packed shapes written as bytes.
ghost use Rattle.std.specs.Prelude.{◌≡◌, ◌*◌, ◌<◌, ◌≤◌, length, get_or};
ghost use Rattle.std.proofs.lemmas.List.Edits.{sets};
ghost use Rattle.bitrows.specs.Numbers.{nodes_in};
ghost use Rattle.packed.specs.inside.Steps.{shape_of, Within};

use bitrows::NODES;

// A node of the numbers.
fn node_at(numbers: &[u64], node: usize) -> u8
    requires { node < 64 * length numbers.now }
    ensures { result ≡ get_or (nodes_in numbers.now) node 0 }
{
    ((numbers[node / NODES] >> (node % NODES)) % 2) as u8
}

// The first n nodes, a byte each.
pub fn put_nodes(numbers: &[u64], n: usize, shape: &mut [u8])
    requires within { Within numbers.now n }
    requires n_in_bounds { n ≤ length shape.old }
    ensures { shape.new ≡ sets shape.old 0 (shape_of numbers.now n) }
{
    for i in 0..n {
        shape[i] = node_at(numbers, i);
    }
}
