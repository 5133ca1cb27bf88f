// The number of letters of a spelling: the speller taken through both tables, with nothing written.
// Not one loop with `writing`: of a step as a parameter it would have to ask that its letters fit behind any so far.
ghost use Rattle.std.specs.Prelude.{◌≡◌, ◌<◌, ◌^◌, length};
ghost use Rattle.group.specs.Limits.{limit};
ghost use Rattle.spelling.specs.inside.Steps.{behind_runs, rising_runs, falling_runs, table_letters};

use super::speller::Speller;
use refusals::{GeneratorIndex, LIMIT};

// The b side from index 1 on, indices rising.
fn count_rising(b: &[u16], start: Speller) -> Speller
    requires limit_in_bounds { limit < length b.now }
    requires b_bound { (behind_runs start (rising_runs b.now)).count < 2 ^ 64 }
    ensures { result ≡ behind_runs start (rising_runs b.now) }
{
    let mut state = start;
    for k in 1..=LIMIT {
        state = state.power(GeneratorIndex(k as u16), b[k]);
    }
    state
}

// The a side down to index 1, indices falling.
fn count_falling(a: &[u16], start: Speller) -> Speller
    requires limit_in_bounds { limit < length a.now }
    requires a_bound { (behind_runs start (falling_runs a.now)).count < 2 ^ 64 }
    ensures { result ≡ behind_runs start (falling_runs a.now) }
{
    let mut state = start;
    for k in (1..=LIMIT).rev() {
        state = state.power(GeneratorIndex(k as u16), a[k]);
    }
    state
}

// The number of letters of the spelling of two tables.
pub fn count(b: &[u16], a: &[u16]) -> usize
    requires { (limit < length b.now) × (limit < length a.now) }
    ensures { result ≡ table_letters b.now a.now }
{
    let top = count_rising(b, Speller::new(b[0]));
    let last = count_falling(a, top);
    last.count + last.due.abs_diff(usize::from(a[0]))
}
