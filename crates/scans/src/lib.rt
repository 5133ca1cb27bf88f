// The length by Table 1 of 001: one pass over the exponents of two trees, with two counters for each.
#![tactic(auto)]

ghost use Rattle.std.specs.Prelude.{◌≡◌};
ghost use Rattle.lengths.specs.inside.Contracts.{length_of, table_length};

mod columns;
mod labels;
mod scan;
mod sides;
mod table;

// The length of the smallest tree pair with the exponents of two tables of at most MAX_CARETS entries each. The carets
// are counted first: tables that no form within the limits has are found unfit before a column is weighed.
pub fn scan_length(b: &[u16], a: &[u16]) -> Option<usize>
    ensures { length_of result ≡ table_length b.now a.now }
{
    let n = trees::count_carets(b, a).ok()?;
    if n == 0 {
        return Some(0);
    }
    Some(scan::scan(b, a, n))
}
