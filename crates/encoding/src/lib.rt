// Records written from two tables of exponents.
#![tactic(auto)]

ghost use Rattle.encoding.specs.inside.Contracts.{Encoded};

use records::BASE_SIZE;
use refusals::{Failure, LIMIT, Refusal};

mod writing;

// The record of two tables of exponents, written at the front of a buffer, which may be longer.
pub fn write_record(b: &[u16], a: &[u16], buffer: &mut [u8]) -> Result<usize, Failure>
    ensures { Encoded b.now a.now buffer.old buffer.new result }
{
    if b.len() > LIMIT + 1 || a.len() > LIMIT + 1 {
        return Err(Failure::Unfit);
    }
    let b_powers = writing::count_powers(b);
    let a_powers = writing::count_powers(a);
    if buffer.len() < BASE_SIZE + 4 * (b_powers + a_powers) {
        return Err(Failure::Refused(Refusal::ShortBuffer));
    }
    Ok(writing::put_record(b, b_powers, a, a_powers, buffer))
}
