// The exponent of a token: what stands behind its index.
ghost use Rattle.std.specs.Prelude.{◌≡◌, ◌∷◌, ◌≤◌, length, drop};
ghost use Rattle.tokens.specs.Tokens.{power_sign};
ghost use Rattle.tokens.specs.inside.Spelling.{is_end, LastRead, ExponentRead};

use crate::numbers;
use crate::numbers::Number;

// An exponent: whether it has a minus sign, and its size; and the place behind it.
#[derive(Clone, Copy)]
pub struct Exponent {
    pub inverse: bool,
    pub size: usize,
    pub end: usize,
}

// Whether a token may end at a place: the text ends there, or a space follows.
fn at_end(text: &[u8], at: usize) -> bool
    ensures { result ≡ is_end (drop at text.now) }
{
    matches!(text.get(at), None | Some(b' '))
}

// The number that ends a token, not below a least.
fn read_last(text: &[u8], at: usize, least: usize) -> Option<Number>
    requires { at ≤ length text.now }
    ensures { LastRead text.now at least result }
{
    let found = numbers::read_number(text, at)?;
    (least <= found.value && at_end(text, found.end)).then_some(found)
}

// The exponent behind the sign `^`: with a minus sign from 1 on, else from 2 on.
fn read_signed(text: &[u8], at: usize) -> Option<Exponent>
    requires { at ≤ length text.now }
    ensures { ExponentRead (power_sign ∷ drop at text.now) text.now result }
{
    if numbers::stands(text, at, b'-') {
        let found = read_last(text, at + 1, 1)?;
        return Some(Exponent {
            inverse: true,
            size: found.value,
            end: found.end,
        });
    }
    let found = read_last(text, at, 2)?;
    Some(Exponent {
        inverse: false,
        size: found.value,
        end: found.end,
    })
}

// The exponent at a place: 1 where the token ends there.
pub fn read_exponent(text: &[u8], at: usize) -> Option<Exponent>
    requires { at ≤ length text.now }
    ensures { ExponentRead (drop at text.now) text.now result }
{
    if at_end(text, at) {
        return Some(Exponent {
            inverse: false,
            size: 1,
            end: at,
        });
    }
    if numbers::stands(text, at, b'^') {
        return read_signed(text, at + 1);
    }
    None
}
