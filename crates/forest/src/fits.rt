// Whether powers and scratch fit the engine.
ghost use Rattle.std.specs.Prelude.{◌≡◌, true, false, cond, eqb, ltb};
ghost use Rattle.lists.specs.Entries.{total};
ghost use Rattle.group.specs.Limits.{limit};
ghost use Rattle.forest.specs.inside.Filling.{cells};
ghost use Rattle.forest.specs.inside.Seeking.{front_room, row_room};
ghost use Rattle.forest.specs.inside.FillingPowers.{indices_fit_value, powers_fit_value};

use crate::cells::LAST_TIP;
use crate::{CELLS, FRONT_ROOM, ROW_ROOM};

// Whether the scratch for powers has the right sizes, by the lengths of its four slices.
pub fn scratch_fits(lefts: usize, rights: usize, before: usize, stack: usize) -> bool
    ensures { result ≡ cond (eqb lefts cells)
        (cond (eqb rights cells) (cond (eqb before front_room) (eqb stack row_room) false) false) false }
{
    lefts == CELLS && rights == CELLS && before == FRONT_ROOM && stack == ROW_ROOM
}

// Whether no index is above the limit.
fn indices_fit(indices: &[u16]) -> bool
    ensures { result ≡ indices_fit_value indices.now }
{
    indices.iter().all(|&k| k <= LAST_TIP)
}

// Whether the exponents sum to at most the limit: `left` is what may still come.
fn sum_fits(exponents: &[u16]) -> bool
    ensures { result ≡ cond (ltb limit (total exponents.now)) false true }
{
    let mut left = LAST_TIP;
    for &e in exponents {
        let Some(rest) = left.checked_sub(e) else {
            return false;
        };
        left = rest;
    }
    true
}

// Whether three slices of one length hold powers within the limits.
pub fn powers_fit(indices: &[u16], exponents: &[u16], sides: &[u8]) -> bool
    ensures { result ≡ powers_fit_value indices.now exponents.now sides.now }
{
    let n = indices.len();
    exponents.len() == n && sides.len() == n && indices_fit(indices) && sum_fits(exponents)
}
