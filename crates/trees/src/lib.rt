// Tree pairs of forms.
#![tactic(auto)]

ghost use Rattle.std.specs.Prelude.{◌≡◌};
ghost use Rattle.trees.specs.inside.Writing.{pairing_of, table_carets, WrotePair};

use refusals::{Failure, LIMIT, Refusal};

mod count;
mod writer;
pub mod zeros;

// The most carets of a tree: no index is above LIMIT and the exponents sum to at most LIMIT.
pub const MAX_CARETS: usize = 2 * LIMIT + 1;

// The number of carets of the smallest tree pair with the exponents of two tables. Each table has at most MAX_CARETS
// entries, one for every leaf but the last of the largest tree; the exponents behind its end are 0.
pub fn count_carets(b: &[u16], a: &[u16]) -> Result<usize, Failure>
    ensures { pairing_of result ≡ table_carets b.now a.now }
{
    if MAX_CARETS < b.len() || MAX_CARETS < a.len() {
        return Err(Failure::Unfit);
    }
    let n = count::carets(b, a);
    if MAX_CARETS < n {
        return Err(Failure::Unfit);
    }
    Ok(n)
}

// The shapes of that tree pair, T− at the front of the first buffer and T+ at the front of the second.
pub fn write_pair(
    b: &[u16],
    a: &[u16],
    t_minus: &mut [u8],
    t_plus: &mut [u8],
) -> Result<usize, Failure>
    ensures { WrotePair b.now a.now t_minus.old t_plus.old
        t_minus.new t_plus.new result }
{
    let n = count_carets(b, a)?;
    let size = 2 * n + 1;
    if t_minus.len() < size || t_plus.len() < size {
        return Err(Failure::Refused(Refusal::ShortBuffer));
    }
    writer::write_tree(a, n, t_minus);
    writer::write_tree(b, n, t_plus);
    Ok(n)
}
