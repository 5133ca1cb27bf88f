// The entries of a record's two fields, in order.
ghost use Rattle.std.specs.Prelude.{◌≡◌, ◌≤◌, ◌<◌, MatchResult};
ghost use Rattle.group.specs.Limits.{limit};
ghost use Rattle.refusals.specs.Outcomes.{accepted, drop_value, refusal, reply_of};
ghost use Rattle.records.specs.Reading.{b_powers, a_powers, is_faulty, scan as scanned};
ghost use Rattle.records.specs.inside.Walking.{left_at, Inside};
ghost use Rattle.records.specs.inside.Steps.{Proper, proper_prop, scan_both};

use crate::frame::Frame;
use crate::walk::Place;
use fields::integers::number_at;
use refusals::{LIMIT, Refusal};

// A framed record whose entries are right.
#[derive(Clone, Copy)]
pub struct Entries<'a> {
    pub frame: Frame<'a>,
    ghost b_proper: { Proper 0 (b_powers frame.bytes.now) } by { proper_prop 0 (b_powers frame.bytes.now) },
    ghost a_proper: { Proper 0 (a_powers frame.bytes.now) } by { proper_prop 0 (a_powers frame.bytes.now) },
}

// Whether an entry breaks a rule; `low` is one above the index before it.
fn faulty(low: usize, sum: usize, index: usize, exponent: usize) -> bool
    requires { (sum ≤ limit) × (exponent < 65536) }
    ensures { result ≡ is_faulty low sum index exponent }
{
    exponent == 0 || LIMIT < index || index < low || LIMIT < sum + exponent
}

// The sum of the exponents so far and of one field's entries, in order, or 4 at the first that is wrong.
fn scan_field(s: &[u8], p: Place, sum: usize) -> Result<usize, Refusal>
    requires inside { Inside s.now p }
    requires small { sum ≤ limit }
    ensures { reply_of result ≡ scanned p.at 0 sum (left_at s.now p) }
{
    let mut low = 0;
    let mut total = sum;
    for i in 0..p.left {
        let at = p.at + 4 * i;
        let index = number_at(s, at);
        let exponent = number_at(s, at + 2);
        if faulty(low, total, index, exponent) {
            return Err(Refusal::BadEntry(at));
        }
        low = index + 1;
        total += exponent;
    }
    Ok(total)
}

impl<'a> Frame<'a> {
    // The entries of both fields, with one sum over them.
    pub fn entries(self) -> Result<Entries<'a>, Refusal>
        ensures { MatchResult result
            (λ e. (e.frame.bytes.now ≡ self.entry.bytes.now)
            × (accepted 0 ≡ drop_value (scan_both self.entry.bytes.now)))
            (λ r. refusal r ≡ drop_value (scan_both self.entry.bytes.now)) }
    {
        let sum = scan_field(self.bytes, self.b_place(), 0)?;
        scan_field(self.bytes, self.a_place(), sum)?;
        Ok(Entries { frame: self })
    }
}
