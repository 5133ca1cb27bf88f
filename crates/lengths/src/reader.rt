// The classes of a tree's carets, read from its shape: the subtree that hangs on a side, the caret of the side, and so
// on. They are written over the shape, from its start on: that of a caret over a node that was read before.
ghost use Rattle.std.specs.Prelude.{◌≡◌, suc, ◌<◌, length, drop};
ghost use Rattle.std.proofs.lemmas.List.Edits.{sets};
ghost use Rattle.lengths.specs.inside.Reading.{side_classes, shape_classes};
ghost use Rattle.lengths.specs.inside.Steps.{class_bytes, left_carets};
ghost use Rattle.lengths.specs.inside.Steps.{Readable, Hanging, NodeReady, NodeRead, SubtreeRead};
ghost use Rattle.lengths.specs.inside.Steps.{InnerRead, Shaped};

use crate::kinds::{INSIDE_LEAF, LEFT, RIGHT};
use refusals::CaretNumber;

// Amid an interior subtree: the next caret in order, and the subtrees to come.
#[derive(Drop)]
pub struct Amid {
    pub caret: CaretNumber,
    pub pending: usize,
}

// How far a shape is read: the next node, and the next caret in order.
#[derive(Clone, Copy)]
pub struct Place {
    pub at: usize,
    pub caret: CaretNumber,
}

// One node of an interior subtree: a caret opens a subtree more, a leaf closes one and the next caret is interior. Its
// class is INSIDE_LEAF and the first byte of its right subtree, which makes INSIDE_CARET where that is 1. The place is
// in two parts here: the answer has the caret alone, and the loop moves the node on.
fn read_node(shape: &mut [u8], at: usize, caret: CaretNumber, pending: usize) -> Amid
    requires { NodeReady shape.old at caret.0 pending }
    ensures { NodeRead shape.old at caret.0 pending shape.new result }
{
    if shape[at] == 1 {
        return Amid {
            caret,
            pending: pending + 1,
        };
    }
    if pending == 1 {
        return Amid { caret, pending: 0 };
    }
    let k = caret.0 as usize;
    shape[k] = INSIDE_LEAF + shape[at + 1];
    Amid {
        caret: CaretNumber(caret.0 + 1),
        pending: pending - 1,
    }
}

// The interior subtree that begins at a node.
fn read_subtree(shape: &mut [u8], from: Place) -> Place
    requires { Hanging shape.old from.at from.caret.0 }
    ensures { SubtreeRead shape.old from.at from.caret.0 shape.new result }
{
    let mut place = from;
    let mut pending = 1;
    // No `for`: how many nodes the subtree has is known once none is pending.
    while pending > 0 {
        let inside = read_node(shape, place.at, place.caret, pending);
        pending = inside.pending;
        place = Place {
            at: place.at + 1,
            caret: inside.caret,
        };
    }
    place
}

// The rest of the tree, where a subtree that hangs on a side begins: the right subtree of a caret of the left side, or
// what is left of the right side.
#[cycle(read_inner_read_side)]
fn read_side(shape: &mut [u8], from: Place, lefts: usize)
    requires { Readable shape.old from.at (suc lefts) from.caret.0 }
    ensures { shape.new
        ≡ sets shape.old from.caret.0 (class_bytes (side_classes (drop from.at shape.old) lefts)) }
{
    if lefts > 0 {
        return read_inner(shape, from, LEFT, lefts - 1);
    }
    if shape[from.at] == 1 {
        read_inner(
            shape,
            Place {
                at: from.at + 1,
                ..from
            },
            RIGHT,
            0,
        );
    }
}

// The rest of the tree, where an interior subtree begins: behind it the next caret of a side, which is of the class,
// and so many carets of the left side.
#[cycle(read_inner_read_side)]
fn read_inner(shape: &mut [u8], from: Place, class: u8, lefts: usize)
    requires { Readable shape.old from.at (suc (suc lefts)) from.caret.0 }
    ensures { InnerRead shape.old from.at from.caret.0 class lefts shape.new }
{
    let behind = read_subtree(shape, from);
    shape[behind.caret.0 as usize] = class;
    let next = Place {
        caret: CaretNumber(behind.caret.0 + 1),
        ..behind
    };
    read_side(shape, next, lefts)
}

// The carets in front of the first leaf.
fn left_edge(shape: &[u8]) -> usize
    requires { Shaped shape.now }
    ensures value { result ≡ left_carets shape.now }
    ensures upper_bound { result < length shape.now }
{
    shape.iter().take_while(|x| **x == 1).count()
}

// The classes of the carets of the tree with the shape, written over its front.
pub fn read_classes(shape: &mut [u8])
    requires { Readable shape.old 0 1 0 }
    ensures { shape.new
        ≡ sets shape.old 0 (class_bytes (shape_classes shape.old)) }
{
    let lefts = left_edge(shape);
    if lefts > 0 {
        shape[0] = LEFT;
        let from = Place {
            at: lefts + 1,
            caret: CaretNumber(1),
        };
        read_side(shape, from, lefts - 1);
    }
}
