// Texts in subscript notation, read into arrays of powers.
#![tactic(auto)]

ghost use Rattle.tokens.specs.inside.Arrays.{TokensRead};

use refusals::{LIMIT, Refusal};

mod exponents;
mod keeping;
mod numbers;
mod token;

// The powers that were read: how many, and the sum of the sizes of their exponents.
#[derive(Clone, Copy)]
pub struct Powers {
    pub count: usize,
    pub sum: usize,
}

// A text into three arrays: the index, the exponent and the side of each power, 0 for x_k^e and 1 for x_k^-e.
// Not one array of powers: `forest::fill_powers` promises its result for three (`FilledPowers`).
pub fn read_text(
    text: &[u8],
    indices: &mut [u16; LIMIT],
    exponents: &mut [u16; LIMIT],
    sides: &mut [u8; LIMIT],
) -> Result<Powers, Refusal>
    ensures { TokensRead text.now indices.new exponents.new
        sides.new result }
{
    let none = Powers { count: 0, sum: 0 };
    if text.is_empty() {
        return Ok(none);
    }
    let mut powers = Some(none);
    let mut at = 0;
    // No `split`: a refusal names the place of a token, which would be counted beside the pieces.
    while at <= text.len() {
        let power = token::read_token(text, at).ok_or(Refusal::Misspelled(at))?;
        powers = keeping::keep(power, powers, indices, exponents, sides);
        at = power.end + 1;
    }
    powers.ok_or(Refusal::LargeExponents)
}
