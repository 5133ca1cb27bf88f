// The sum of the weights over the carets of a pair, from the last to caret 1.
ghost use Rattle.std.specs.Prelude.{◌≡◌, ◌||◌, nat_le, take};
ghost use Rattle.trees.specs.Shapes.{shape_size};
ghost use Rattle.lengths.specs.Kinds.{kinds_of};
ghost use Rattle.lengths.specs.Weights.{weights};
ghost use Rattle.lengths.specs.inside.Reading.{shape_classes};
ghost use Rattle.lengths.specs.inside.Steps.{classes_of, PairShaped, PairClassed};

use crate::kinds::{INSIDE_LEAF, kind};
use crate::reader::read_classes;
use crate::table::weight;

// What is behind a caret of a tree: whether the next caret is interior, and whether some later one is.
#[derive(Clone, Copy)]
pub struct Behind {
    pub next: bool,
    pub later: bool,
}

impl Behind {
    // The same in front of a caret of the class.
    fn before(self, class: u8) -> Behind
        ensures next { result.next ≡ nat_le 2 class }
        ensures later { result.later ≡ (nat_le 2 class || self.later) }
    {
        let inside = class >= INSIDE_LEAF;
        Behind {
            next: inside,
            later: inside | self.later,
        }
    }
}

// The weights of the carets 1 to n − 1, by the classes of the carets of T− and of T+, from the last on. The last caret
// of neither is interior, so that it weighs at most 2; every other weighs at most 4, and 16 bits hold the sum.
fn sum_weights(minus: &[u8], plus: &[u8], n: usize) -> usize
    requires { PairClassed minus.now plus.now n }
    ensures { result ≡ weights (kinds_of (classes_of (take n minus.now)))
        (kinds_of (classes_of (take n plus.now))) }
{
    let mut sum: u16 = 0;
    let mut m = Behind {
        next: false,
        later: false,
    };
    let mut p = m;
    for k in (1..n).rev() {
        let x = minus[k];
        let y = plus[k];
        sum += weight(kind(x, m.next, m.later), kind(y, p.next, p.later)) as u16;
        m = m.before(x);
        p = p.before(y);
    }
    sum as usize
}

// The length of the pair with n carets whose shapes stand at the front of two buffers; the classes of its carets are
// written over them.
pub fn shapes_length(t_minus: &mut [u8], t_plus: &mut [u8], n: usize) -> usize
    requires { PairShaped t_minus.old t_plus.old n }
    ensures { result ≡ weights (kinds_of (shape_classes (take (shape_size n) t_minus.old)))
        (kinds_of (shape_classes (take (shape_size n) t_plus.old))) }
{
    let size = 2 * n + 1;
    read_classes(&mut t_minus[..size]);
    read_classes(&mut t_plus[..size]);
    sum_weights(t_minus, t_plus, n)
}
