// One token of a text.
ghost use Rattle.std.specs.Prelude.{◌≤◌, length};
ghost use Rattle.tokens.specs.inside.Spelling.{IndexRead};
ghost use Rattle.tokens.specs.inside.Keeping.{TokenRead};

use crate::numbers::Number;
use crate::{exponents, numbers};

// The power of a token, x_k^e or x_k^-e, and the place behind it.
#[derive(Clone, Copy)]
pub struct Power {
    pub inverse: bool,
    pub index: usize,
    pub exponent: usize,
    pub end: usize,
}

// The sign `x` and an index at a place.
fn read_index(text: &[u8], at: usize) -> Option<Number>
    requires { at ≤ length text.now }
    ensures { IndexRead text.now at result }
{
    if numbers::stands(text, at, b'x') {
        return numbers::read_number(text, at + 1);
    }
    None
}

// The token at a place; it ends where the text ends or before a space.
pub fn read_token(text: &[u8], at: usize) -> Option<Power>
    requires { at ≤ length text.now }
    ensures { TokenRead text.now at result }
{
    let index = read_index(text, at)?;
    let exponent = exponents::read_exponent(text, index.end)?;
    Some(Power {
        inverse: exponent.inverse,
        index: index.value,
        exponent: exponent.size,
        end: exponent.end,
    })
}
