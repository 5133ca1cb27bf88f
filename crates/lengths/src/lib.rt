// The length of a form: Fordham's sum over the carets of its smallest tree pair.
#![tactic(auto)]

ghost use Rattle.std.specs.Prelude.{◌≡◌, ◌≤◌};
ghost use Rattle.trees.specs.Pairs.{max_carets};
ghost use Rattle.trees.specs.Shapes.{shape_size};
ghost use Rattle.lengths.specs.inside.Contracts.{length_of, table_length};
ghost use Rattle.lengths.specs.inside.Steps.{length_within, Found};

use trees::MAX_CARETS;

pub mod kinds;
mod reader;
mod sums;
mod table;

// The bytes of the shape of the largest tree.
const MAX_SHAPE: usize = 2 * MAX_CARETS + 1;

// A pair of at most so many carets is weighed in short arrays: to clear long ones takes longer than to weigh it. They
// are tried where the first table has at most so many entries, since to count the carets of longer tables in vain takes
// longer.
const SMALL: usize = 64;

// The bytes of the shape of a tree of SMALL carets.
const SMALL_SHAPE: usize = 2 * SMALL + 1;

// The length of the smallest tree pair with the exponents of two tables; none if its shapes have more than N bytes.
fn length_in<const N: usize>(b: &[u16], a: &[u16]) -> Option<usize>
    requires { N ≤ shape_size max_carets }
    ensures { length_of result ≡ length_within N b.now a.now }
{
    let mut t_minus = [0u8; N];
    let mut t_plus = [0u8; N];
    let n = trees::write_pair(b, a, &mut t_minus, &mut t_plus).ok()?;
    Some(sums::shapes_length(&mut t_minus, &mut t_plus, n))
}

// The length of a pair of at most SMALL carets; none if it has more, or if the first table has more entries.
fn small_length(b: &[u16], a: &[u16]) -> Option<usize>
    ensures { Found b.now a.now result }
{
    if SMALL < b.len() {
        return None;
    }
    length_in::<SMALL_SHAPE>(b, a)
}

// The length of the smallest tree pair with the exponents of two tables of at most MAX_CARETS entries each.
pub fn pair_length(b: &[u16], a: &[u16]) -> Option<usize>
    ensures { length_of result ≡ table_length b.now a.now }
{
    small_length(b, a).or_else(|| length_in::<MAX_SHAPE>(b, a))
}
