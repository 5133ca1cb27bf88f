// The text of two tables of exponents: the token of each exponent above 0, a space in front of each.
ghost use Rattle.std.specs.Prelude.{◌≡◌, cond, [], suc, ◌+◌, ◌-◌, ◌≤◌, length, take, drop};
ghost use Rattle.lists.specs.inside.Writes.{Wrote};
ghost use Rattle.group.specs.Forms.{b_side, a_side};
ghost use Rattle.group.specs.Limits.{limit};
ghost use Rattle.group.specs.Powers.{put_signed};
ghost use Rattle.refusals.specs.Placing.{fitting, Placed};
ghost use Rattle.tokens.specs.Tokens.{exponent_text};
ghost use Rattle.tokens.specs.Texts.{further_text};
ghost use Rattle.notation.specs.inside.Tables.{rising_in, falling_in, powers_of, text_room, text_beside};

use refusals::{LIMIT, Refusal};

// The entries of a table.
pub const TABLE: usize = LIMIT + 1;

// The most bytes of a text: at most LIMIT powers, and at most 12 bytes for each: ` x`, `^-`, and four digits twice.
const ROOM: usize = 12 * LIMIT;

// An exponent: nothing for 1, else `^` and the decimal; for an inverse always `^-` and the decimal.
fn put_exponent(inverse: bool, e: u16, out: &mut [u8], at: usize) -> usize
    requires { at + length (exponent_text (cond inverse a_side b_side) e) ≤ length out.old }
    ensures { Wrote (exponent_text (cond inverse a_side b_side) e) out.old at out.new result }
{
    if inverse {
        out[at] = b'^';
        out[at + 1] = b'-';
        return printing::put_decimal(e as u64, out, at + 2);
    }
    if e == 1 {
        return at;
    }
    out[at] = b'^';
    printing::put_decimal(e as u64, out, at + 1)
}

// A space and the token of a power; nothing for exponent 0.
fn put_power(inverse: bool, k: usize, e: u16, out: &mut [u8], at: usize) -> usize
    requires { at + length (further_text (put_signed (cond inverse a_side b_side) k e [])) ≤ length out.old }
    ensures { Wrote (further_text (put_signed (cond inverse a_side b_side) k e [])) out.old at
        out.new result }
{
    if e == 0 {
        return at;
    }
    out[at] = b' ';
    out[at + 1] = b'x';
    let end = printing::put_decimal(k as u64, out, at + 2);
    put_exponent(inverse, e, out, end)
}

// The b side, indices rising, at the front of the buffer.
fn write_rising(b: &[u16; TABLE], out: &mut [u8]) -> usize
    requires b_len { length b.now ≡ suc limit }
    requires b_in_bounds { length (further_text (rising_in 0 b.now)) ≤ length out.old }
    ensures { Wrote (further_text (rising_in 0 b.now)) out.old 0 out.new result }
{
    let mut at = 0;
    for k in 0..TABLE {
        at = put_power(false, k, b[k], out, at);
    }
    at
}

// The a side, indices falling, from a place on. Not one with `write_rising`: the order is the loop's own.
fn write_falling(a: &[u16; TABLE], out: &mut [u8], start: usize) -> usize
    requires a_len { length a.now ≡ suc limit }
    requires a_in_bounds { start + length (further_text (falling_in 0 a.now)) ≤ length out.old }
    ensures { Wrote (further_text (falling_in 0 a.now)) out.old start out.new result }
{
    let mut at = start;
    for k in (0..TABLE).rev() {
        at = put_power(true, k, a[k], out, at);
    }
    at
}

// All bytes but the first, at the front of the lent buffer, or 7.
fn place(further: &[u8], text: &mut [u8]) -> Result<usize, Refusal>
    ensures { Placed (fitting (length further.now - 1) (drop 1 further.now) text.old)
        text.old text.new result }
{
    let Some((_, tokens)) = further.split_first() else {
        return Ok(0);
    };
    if text.len() < tokens.len() {
        return Err(Refusal::ShortBuffer);
    }
    Ok(printing::put(tokens, text, 0))
}

// The text of two tables, at the front of the lent buffer, or 7.
pub fn write(b: &[u16; TABLE], a: &[u16; TABLE], text: &mut [u8]) -> Result<usize, Refusal>
    requires b_len { (length b.now ≡ suc limit) × (length a.now ≡ suc limit) }
    requires a_len_bound { length (further_text (powers_of b.now a.now)) ≤ text_room }
    ensures { Placed (text_beside (powers_of b.now a.now) text.old)
        text.old text.new result }
{
    let mut further = [0u8; ROOM];
    let middle = write_rising(b, &mut further);
    let end = write_falling(a, &mut further, middle);
    place(&further[..end], text)
}
