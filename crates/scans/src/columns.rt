// Columns of a pair of trees, one by one where an exponent is behind them, and a stretch at a time where none is.
ghost use Rattle.std.specs.Prelude.{◌≡◌, get_or};
ghost use Rattle.scans.specs.inside.Steps.{column_of, Ready, Scanning, Scanned};
ghost use Rattle.scans.specs.inside.Steps.{stretched_by, Stretch, Passing, Passed};

use crate::labels::Labels;
use crate::sides::Side;
use crate::table::Tally;
use refusals::LeafNumber;

// The exponent of a leaf: that of the generator with its number; those behind the table's end are 0. In 16 bits, where
// `trees` has a size of carets.
pub fn exponent(e: &[u16], leaf: LeafNumber) -> u16
    ensures { result ≡ get_or e.now leaf.0 0 }
{
    e.get(leaf.0 as usize).map_or(0, |x| *x)
}

// Both trees at a caret, and the sum of the columns before it.
#[derive(Drop)]
pub struct State {
    pub minus: Side,
    pub plus: Side,
    pub tally: Tally,
}

impl State {
    // One column more, e and f the exponents of the leaf behind its caret.
    fn column(self, labels: &Labels, e: u16, f: u16) -> State
        requires { Ready self e f }
        ensures { result ≡ column_of self e f }
    {
        let x = labels.at(self.minus, e);
        let y = labels.at(self.plus, f);
        State {
            minus: self.minus.next(e),
            plus: self.plus.next(f),
            tally: self.tally.add_columns(x, y, 1),
        }
    }

    // The columns from the caret in front of a leaf on, up to the one in front of the leaf `stop`, which is left.
    pub fn plain_columns(
        self,
        labels: &Labels,
        b: &[u16],
        a: &[u16],
        from: LeafNumber,
        stop: LeafNumber,
    ) -> State
        requires { Scanning b.now a.now from.0 stop.0 self }
        ensures { Scanned b.now a.now from.0 stop.0 self result }
    {
        let mut s = self;
        for leaf in from.0..stop.0 {
            s = s.column(
                labels,
                exponent(a, LeafNumber(leaf)),
                exponent(b, LeafNumber(leaf)),
            );
        }
        s
    }

    // A stretch of so many columns of one label over another, with no exponent behind them.
    fn stretch(self, labels: &Labels, count: usize) -> State
        requires { Stretch self count }
        ensures { result ≡ stretched_by self count }
    {
        let x = labels.at(self.minus, 0);
        let y = labels.at(self.plus, 0);
        State {
            minus: self.minus.pass(count),
            plus: self.plus.pass(count),
            tally: self.tally.add_columns(x, y, count as u16),
        }
    }

    // So many columns with no exponent behind them: at most five stretches.
    pub fn zero_columns(self, labels: &Labels, count: usize) -> State
        requires { Passing count self }
        ensures { Passed count self result }
    {
        let mut s = self;
        let mut left = count;
        // No `for`: each turn finds how many columns it passes.
        while left > 0 {
            let c = s.plus.run(s.minus.run(left));
            s = s.stretch(labels, c);
            left -= c;
        }
        s
    }
}
