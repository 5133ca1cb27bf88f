// Fordham's table of weights, in the order of the kinds.
ghost use Rattle.std.specs.Prelude.{◌≡◌};
ghost use Rattle.lengths.specs.Weights.{weight as weightOf};
ghost use Rattle.lengths.specs.inside.Steps.{kind_named};

use crate::kinds::CaretKind;

const WEIGHTS: [[u8; 6]; 6] = [
    [0, 2, 2, 1, 1, 3],
    [2, 2, 2, 1, 1, 3],
    [2, 2, 2, 1, 3, 3],
    [1, 1, 1, 2, 2, 2],
    [1, 1, 3, 2, 2, 4],
    [3, 3, 3, 2, 4, 4],
];

// The weight of a caret of T− with a caret of T+.
pub fn weight(minus: CaretKind, plus: CaretKind) -> u8
    ensures { result ≡ weightOf (kind_named minus) (kind_named plus) }
{
    WEIGHTS[minus as usize][plus as usize]
}
