// Powers kept in three arrays.
ghost use Rattle.tokens.specs.inside.Keeping.{Keepable, Kept};

use crate::Powers;
use crate::token::Power;
use refusals::LIMIT;

// One power more, where the sizes of all sum to at most the limit.
pub fn keep(
    power: Power,
    kept: Option<Powers>,
    indices: &mut [u16],
    exponents: &mut [u16],
    sides: &mut [u8],
) -> Option<Powers>
    requires { Keepable power kept indices.old exponents.old sides.old }
    ensures { Kept power kept indices.old exponents.old sides.old
        indices.new exponents.new sides.new result }
{
    let Powers { count, sum } = kept?;
    let sum = sum + power.exponent;
    if LIMIT < sum {
        return None;
    }
    indices[count] = power.index as u16;
    exponents[count] = power.exponent as u16;
    sides[count] = u8::from(power.inverse);
    Some(Powers {
        count: count + 1,
        sum,
    })
}
