// The reduced form's clause by one walk over the entries of both fields, side by side.
ghost use Rattle.std.specs.Prelude.{◌≡◌, suc, ◌+◌, ◌<◌, ◌^◌};
ghost use Rattle.group.specs.Limits.{limit};
ghost use Rattle.refusals.specs.Outcomes.{verdict_of, drop_value};
ghost use Rattle.records.specs.Reading.{form_of_powers};
ghost use Rattle.clause.specs.Clause.{find_break};
ghost use Rattle.records.specs.inside.Walking.{left_at, passed_by, starts_at, breaks_at, Inside, Walkable};

use fields::integers::number_at;
use refusals::{GeneratorIndex, Refusal};

// Where entries of a field stand: the offset of the first, and how many there are from it on.
#[derive(Clone, Copy)]
pub struct Place {
    pub at: usize,
    pub left: usize,
}

impl Place {
    // The next entry, where the index is not above that of the other side; else the same.
    fn passed(self, index: usize, other: usize) -> Place
        requires { (0 < self.left) × (self.at + 4 < 2 ^ 64) }
        ensures { result ≡ passed_by self index other }
    {
        if other < index {
            return self;
        }
        Place {
            at: self.at + 4,
            left: self.left - 1,
        }
    }

    // Whether there is an entry at a place, with an index.
    fn starts(self, s: &[u8], index: usize) -> bool
        requires { Inside s.now self }
        ensures { result ≡ starts_at s.now self index }
    {
        self.left != 0 && number_at(s, self.at) == index
    }
}

// Whether an index breaks the clause, by the entries behind it: both sides have it, and neither has the next.
fn broken(s: &[u8], p: Place, q: Place, index: usize, other: usize) -> bool
    requires { Inside s.now p × Inside s.now q × (index < 65536) }
    ensures { result ≡ breaks_at s.now p q index other }
{
    index == other && !p.starts(s, index + 1) && !q.starts(s, index + 1)
}

// The smallest index that breaks the clause, if any, of the entries from two places on. A `while`: the one, the other
// or both places go on at a turn.
pub fn walk(s: &[u8], b: Place, a: Place) -> Result<(), Refusal>
    requires { Walkable s.now b a }
    ensures { verdict_of result ≡ drop_value (find_break (form_of_powers (left_at s.now b)
        (left_at s.now a)) 0 (suc limit)) }
{
    let mut p = b;
    let mut q = a;
    while 0 < p.left && 0 < q.left {
        let i = number_at(s, p.at);
        let j = number_at(s, q.at);
        let next_p = p.passed(i, j);
        let next_q = q.passed(j, i);
        if broken(s, next_p, next_q, i, j) {
            return Err(Refusal::NotReduced(GeneratorIndex(i as u16)));
        }
        p = next_p;
        q = next_q;
    }
    Ok(())
}
