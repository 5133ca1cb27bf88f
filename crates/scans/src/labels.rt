// The labels of carets by their classes.
ghost use Rattle.std.specs.Prelude.{◌≡◌, [], ◌∷◌};
ghost use Rattle.geodesics.specs.inside.Costs.{label_by};
ghost use Rattle.lengths.specs.inside.Steps.{label_named};
ghost use Rattle.scans.specs.inside.Steps.{LabelsOf, ClassLabels};

use crate::sides::Side;
use lengths::kinds::{CaretLabel, INSIDE_CARET, INSIDE_LEAF, LEFT, RIGHT, kind, label};

// The labels of a class where the next caret is not interior and where it is. Whether some later caret is interior does
// not matter to a label.
fn of_class(class: u8) -> [CaretLabel; 2]
    ensures { LabelsOf class result }
{
    [
        label(kind(class, false, false)),
        label(kind(class, true, true)),
    ]
}

// The labels of all classes, to be looked up without a branch.
#[derive(Clone, Copy)]
pub struct Labels {
    by_class: [[CaretLabel; 2]; 4],
    ghost filled: { ClassLabels by_class },
}

impl Labels {
    pub fn new() -> Labels {
        Labels {
            by_class: [
                of_class(LEFT),
                of_class(RIGHT),
                of_class(INSIDE_LEAF),
                of_class(INSIDE_CARET),
            ],
        }
    }

    // The label of the caret of a tree, by the exponent of the leaf behind it: the next caret is interior where the
    // exponent is above 0.
    pub fn at(&self, side: Side, exponent: u16) -> CaretLabel
        ensures { label_named result ≡ label_by side.subtrees side.lefts exponent }
    {
        let next = usize::from(exponent > 0);
        self.by_class[side.class(exponent) as usize][next]
    }
}
