// Table 1 of 001, and the sum of its weights over columns.
ghost use Rattle.std.specs.Prelude.{◌≡◌};
ghost use Rattle.lengths.specs.inside.Steps.{label_named};
ghost use Rattle.scans.specs.Table.{number_of, label_entry};
ghost use Rattle.scans.specs.inside.Steps.{waiting, weighing, tallied, added, Room};

use lengths::kinds::CaretLabel;

// The weights of columns, the label of a caret of T− over that of T+, in the order I, N, L, R, X.
const TABLE1: [[u8; 5]; 5] = [
    [2, 4, 2, 1, 3],
    [4, 4, 2, 3, 3],
    [2, 2, 2, 1, 1],
    [1, 3, 1, 2, 2],
    [3, 3, 1, 2, 2],
];

// The weight of a column.
fn weight(x: CaretLabel, y: CaretLabel) -> u8
    ensures { result ≡ label_entry (number_of (label_named x)) (number_of (label_named y)) }
{
    TABLE1[x as usize][y as usize]
}

// Whether a column is R over R.
fn both_right(x: CaretLabel, y: CaretLabel) -> bool
    ensures { result ≡ waiting (label_named x) (label_named y) }
{
    (x == CaretLabel::R) & (y == CaretLabel::R)
}

// The sum so far, without the columns R over R at its end, and the weight of these: it counts once another column is
// behind them.
#[derive(Drop)]
pub struct Tally {
    pub sum: u16,
    pub pending: u16,
}

impl Tally {
    // Columns that weigh so much: they wait, or count with what waits before them.
    fn join(self, weight: u16, waits: bool) -> Tally
        requires { Room self weight waits }
        ensures { result ≡ tallied self weight waits }
    {
        if waits {
            return Tally {
                sum: self.sum,
                pending: self.pending + weight,
            };
        }
        Tally {
            sum: self.sum + (self.pending + weight),
            pending: 0,
        }
    }

    // So many columns more, all of x over y.
    pub fn add_columns(self, x: CaretLabel, y: CaretLabel, count: u16) -> Tally
        requires { Room self (weighing (label_named x) (label_named y) count)
            (waiting (label_named x) (label_named y)) }
        ensures { result ≡ added self (label_named x) (label_named y) count }
    {
        self.join(weight(x, y) as u16 * count, both_right(x, y))
    }
}
