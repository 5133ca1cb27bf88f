// The shape of a tree, written from the exponents of its leaves: a caret of the right side, the interior subtree that
// hangs on it, and so on.
ghost use Rattle.std.specs.Prelude.{◌≡◌, [], ◌∷◌, ◌++◌, ◌+◌, ◌≤◌, ◌<◌, length, drop, get_or, replicate};
ghost use Rattle.std.proofs.lemmas.List.Edits.{sets};
ghost use Rattle.lists.specs.inside.Writes.{Wrote};
ghost use Rattle.trees.specs.inside.Writing.{nodes_from};
ghost use Rattle.trees.specs.Building.{tree_of};
ghost use Rattle.trees.specs.Shapes.{shape as shape_of};
ghost use Rattle.trees.specs.inside.Steps.{NodesFit, Partly, ShapeFits};
ghost use Rattle.trees.specs.Pairs.{max_carets};

use crate::MAX_CARETS;
use refusals::{GeneratorIndex, LeafNumber};

// A shorter table of a tree of at most so many carets is copied to a short array: to clear a long one takes longer than
// to write the tree.
const SMALL: usize = 64;

// How far a shape is written: the next leaf, and the place of its first node.
#[derive(Clone, Copy)]
pub struct Place {
    pub leaf: LeafNumber,
    pub at: usize,
}

// n carets in a row and a leaf; answers the place behind. No caret begins at most leaves: these take a short way of
// their own, without the `fill`.
fn put_leaf(shape: &mut [u8], at: usize, n: usize) -> usize
    requires { at + n < length shape.old }
    ensures { Wrote (replicate n 1 ++ (0 ∷ [])) shape.old at shape.new result }
{
    if n == 0 {
        shape[at] = 0;
        return at + 1;
    }
    shape[at..at + n].fill(1);
    shape[at + n] = 0;
    at + n + 1
}

// The exponent of x_i; none stands behind the table's end. That of `scans` is of a leaf and 16 bits wide, as its sum.
fn exponent(e: &[u16], i: GeneratorIndex) -> usize
    ensures { result ≡ get_or e.now i.0 0 }
{
    e.get(i.0 as usize).map_or(0, |x| *x as usize)
}

// The exponent of leaf k is that of x_k.
fn leaf_exponent(e: &[u16], leaf: LeafNumber) -> usize
    ensures { result ≡ get_or e.now leaf.0 0 }
{
    exponent(e, GeneratorIndex(leaf.0))
}

// The interior subtree that begins at a leaf: leaf by leaf, until no subtree is pending.
fn write_subtree(e: &[u16], from: Place, shape: &mut [u8]) -> Place
    requires { NodesFit e.now from.leaf.0 1 from.at shape.old }
    ensures { Partly e.now from.leaf.0 shape.old from.at shape.new result }
{
    let mut place = from;
    let mut pending = 1;
    // No `for`: how many leaves the subtree has is known once none is pending.
    while pending > 0 {
        let n = leaf_exponent(e, place.leaf);
        // In front of `put_leaf`, whose test of n then serves here too.
        pending = pending - 1 + n;
        place = Place {
            leaf: LeafNumber(place.leaf.0 + 1),
            at: put_leaf(shape, place.at, n),
        };
    }
    place
}

// The rest of the tree from a leaf on, where a caret of the right side begins; answers where it ends.
#[cycle(write_inner_write_spine)]
fn write_spine(e: &[u16], from: Place, shape: &mut [u8]) -> usize
    requires { NodesFit e.now from.leaf.0 0 from.at shape.old }
    ensures { Wrote (nodes_from (drop from.leaf.0 e.now) 0) shape.old from.at
        shape.new result }
{
    if (from.leaf.0 as usize) < e.len() {
        shape[from.at] = 1;
        return write_inner(
            e,
            Place {
                at: from.at + 1,
                ..from
            },
            shape,
        );
    }
    put_leaf(shape, from.at, 0)
}

// The rest of the tree from a leaf on, where an interior subtree begins.
#[cycle(write_inner_write_spine)]
fn write_inner(e: &[u16], from: Place, shape: &mut [u8]) -> usize
    requires { NodesFit e.now from.leaf.0 1 from.at shape.old }
    ensures { Wrote (nodes_from (drop from.leaf.0 e.now) 1) shape.old from.at
        shape.new result }
{
    let behind = write_subtree(e, from, shape);
    write_spine(e, behind, shape)
}

// The tree with n carets and the exponents of a table that has an entry for every leaf but the last.
fn write_whole(e: &[u16], n: usize, shape: &mut [u8])
    requires shape_fits { ShapeFits e.now n shape.old }
    requires n_in_bounds { n ≤ length e.now }
    ensures { shape.new ≡ sets shape.old 0 (shape_of (tree_of n e.now)) }
{
    let from = Place {
        leaf: LeafNumber(0),
        at: 0,
    };
    write_spine(&e[..n], from, shape);
}

// The same tree from a shorter table, copied to N zeros, one or more for each caret.
fn write_padded<const N: usize>(e: &[u16], n: usize, shape: &mut [u8])
    requires shape_fits { ShapeFits e.now n shape.old }
    requires e_len_bound { length e.now ≤ N }
    requires n_bound { n ≤ N }
    requires limit { N ≤ max_carets }
    ensures { shape.new ≡ sets shape.old 0 (shape_of (tree_of n e.now)) }
{
    let mut table = [0u16; N];
    table[..e.len()].copy_from_slice(e);
    write_whole(&table, n, shape);
}

// The tree with n carets and the exponents of a table with fewer entries.
fn write_short(e: &[u16], n: usize, shape: &mut [u8])
    requires shape_fits { ShapeFits e.now n shape.old }
    requires e_len_bound { length e.now ≤ n }
    ensures { shape.new ≡ sets shape.old 0 (shape_of (tree_of n e.now)) }
{
    if n <= SMALL {
        write_padded::<SMALL>(e, n, shape)
    } else {
        write_padded::<MAX_CARETS>(e, n, shape)
    }
}

// The tree with n carets and the exponents of a table, at the front of a buffer.
pub fn write_tree(e: &[u16], n: usize, shape: &mut [u8])
    requires { ShapeFits e.now n shape.old }
    ensures { shape.new ≡ sets shape.old 0 (shape_of (tree_of n e.now)) }
{
    if e.len() < n {
        write_short(e, n, shape)
    } else {
        write_whole(e, n, shape)
    }
}
