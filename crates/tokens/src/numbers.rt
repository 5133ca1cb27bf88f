// Decimal numbers in a text, at most the limit.
ghost use Rattle.std.specs.Prelude.{◌≤◌, length, MatchBool};
ghost use Rattle.numerals.specs.Decimals.{Digit};
ghost use Rattle.group.specs.Limits.{limit};
ghost use Rattle.tokens.specs.inside.Spelling.{Stands, NextValue, DigitsRead, NumberRead};

use refusals::LIMIT;

// A number, and the place behind its digits.
#[derive(Clone, Copy)]
pub struct Number {
    pub value: usize,
    pub end: usize,
}

// Whether a sign stands at a place.
pub fn stands(text: &[u8], at: usize, sign: u8) -> bool
    ensures { MatchBool result (Stands text.now at sign) (¬ (Stands text.now at sign)) }
{
    text.get(at) == Some(&sign)
}

// The value with one digit more, where it is at most the limit.
fn next_value(value: usize, digit: u8) -> Option<usize>
    requires { (value ≤ limit) × Digit digit }
    ensures { NextValue value digit result }
{
    let next = 10 * value + usize::from(digit - b'0');
    (next <= LIMIT).then_some(next)
}

// All digits from a place on, also none.
fn read_digits(text: &[u8], at: usize) -> Option<Number>
    requires { at ≤ length text.now }
    ensures { DigitsRead text.now at result }
{
    let mut value = 0;
    for end in at..text.len() {
        let byte = text[end];
        if !byte.is_ascii_digit() {
            return Some(Number { value, end });
        }
        value = next_value(value, byte)?;
    }
    Some(Number {
        value,
        end: text.len(),
    })
}

// The number up to the limit whose numeral stands at a place.
pub fn read_number(text: &[u8], at: usize) -> Option<Number>
    requires { at ≤ length text.now }
    ensures { NumberRead text.now at result }
{
    let found = read_digits(text, at)?;
    if found.end == at || (found.end > at + 1 && text[at] == b'0') {
        return None;
    }
    Some(found)
}
