// A tree at a caret: what is open over it and what is to come, by two counters.
ghost use Rattle.std.specs.Prelude.{◌≡◌, cond, ◌+◌, ◌≤◌};
ghost use Rattle.lengths.specs.inside.Steps.{class_byte};
ghost use Rattle.geodesics.specs.Rows.{class_by};
ghost use Rattle.scans.specs.inside.Steps.{next_side, run_of, Runs, passed_side};

use lengths::kinds::INSIDE_LEAF;

// The interior subtrees that are open over a caret, and the carets of the left side to come at or behind it.
#[derive(Clone, Copy)]
pub struct Side {
    pub subtrees: usize,
    pub lefts: usize,
}

// The first test or the second.
fn select(first: bool, x: bool, y: bool) -> bool
    ensures { result ≡ cond first x y }
{
    if first { x } else { y }
}

impl Side {
    // The class of the caret, by the exponent of the leaf behind it. It is put together from tests, without a branch:
    // the classes of a dense form come in no order that a processor could foresee.
    pub fn class(self, exponent: u16) -> u8
        ensures { result ≡ class_byte (class_by self.subtrees self.lefts exponent) }
    {
        let inside = self.subtrees > 0;
        INSIDE_LEAF * u8::from(inside) + u8::from(select(inside, exponent > 0, self.lefts == 0))
    }

    // The tree at the next caret: each caret closes one of what is open or to come, the exponent opens as many.
    pub fn next(self, exponent: u16) -> Side
        requires { self.subtrees + exponent ≤ 4294967295 }
        ensures { result ≡ next_side self exponent }
    {
        let inside = usize::from(self.subtrees > 0);
        let left = usize::from(select(self.subtrees > 0, false, self.lefts > 0));
        Side {
            subtrees: self.subtrees - inside + exponent as usize,
            lefts: self.lefts - left,
        }
    }

    // How many carets, of the next ones with no exponent behind them, have one label.
    pub fn run(self, most: usize) -> usize
        ensures { result ≡ run_of self most }
    {
        if self.subtrees > 0 {
            self.subtrees.min(most)
        } else if self.lefts > 0 {
            self.lefts.min(most)
        } else {
            most
        }
    }

    // The tree behind so many of them.
    pub fn pass(self, count: usize) -> Side
        requires { Runs count self }
        ensures { result ≡ passed_side self count }
    {
        if self.subtrees > 0 {
            Side {
                subtrees: self.subtrees - count,
                ..self
            }
        } else if self.lefts > 0 {
            Side {
                lefts: self.lefts - count,
                ..self
            }
        } else {
            self
        }
    }
}
