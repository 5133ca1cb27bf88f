// The tree pair of a record, and its length: by Fordham's weights, and by Table 1 of 001.
#![tactic(auto)]

ghost use Rattle.std.specs.Prelude.{◌≡◌};
ghost use Rattle.lengths.specs.Weights.{form_length};
ghost use Rattle.pairs.specs.Promises.{Paired, label_sum, Measured};
ghost use Rattle.pairs.specs.inside.Passing.{GivesLength};

use refusals::{Failure, LIMIT, Refusal};

// Record to tree pair: refusals 3, 4 and 5, then 7; else the shapes of T− and T+ at the front of the two buffers. The
// tables of a form within the limits are never unfit.
pub fn record_to_tree_pair(
    record: &[u8],
    t_minus: &mut [u8],
    t_plus: &mut [u8],
) -> Result<usize, Refusal>
    ensures { Paired «record».now t_minus.old t_plus.old
        t_minus.new t_plus.new result }
{
    let mut b = [0u16; LIMIT + 1];
    let mut a = [0u16; LIMIT + 1];
    let read = records::record_to_tables(record, &mut b, &mut a);
    let Ok(()) = read else {
        return Err(read.unwrap_err());
    };
    match trees::write_pair(&b, &a, t_minus, t_plus) {
        Ok(n) => Ok(n),
        Err(Failure::Refused(r)) => Err(r),
        // Proved here, from what is lent here: so this match is no function of its callers.
        Err(Failure::Unfit) => unreachable!(),
    }
}

// What a measure of two tables gives for those of a record, which are never unfit for it: refusals 3, 4 and 5, else the
// length.
fn measured<F: FnOnce(&[u16], &[u16]) -> Option<usize>>(
    record: &[u8],
    measure: F,
) -> Result<usize, Refusal>
    requires callable { F.IsAlwaysCallable measure }
    requires measures { GivesLength (F.post measure) }
    ensures { Measured form_length «record».now result }
{
    let mut b = [0u16; LIMIT + 1];
    let mut a = [0u16; LIMIT + 1];
    let read = records::record_to_tables(record, &mut b, &mut a);
    let Ok(()) = read else {
        return Err(read.unwrap_err());
    };
    match measure(&b, &a) {
        Some(n) => Ok(n),
        None => unreachable!(),
    }
}

// Record to length: refusals 3, 4 and 5; else the sum of the weights over the carets of the pair.
pub fn record_to_length(record: &[u8]) -> Result<usize, Refusal>
    ensures { Measured form_length «record».now result }
{
    measured(record, lengths::pair_length)
}

// Record to length by Table 1: refusals 3, 4 and 5; else the sum of the table over the labels of the pair's carets.
pub fn record_to_label_length(record: &[u8]) -> Result<usize, Refusal>
    ensures { Measured label_sum «record».now result }
{
    measured(record, scans::scan_length)
}
