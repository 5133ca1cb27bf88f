// The number of carets of a tree pair. A table is gone through from its end, and its blocks of zeros are passed over.
ghost use Rattle.std.specs.Prelude.{◌≡◌, true, ◌≤◌, ◌-◌, max, length};
ghost use Rattle.trees.specs.Building.{needed as neededFrom};
ghost use Rattle.trees.specs.Pairs.{carets_of_sides, max_carets};
ghost use Rattle.trees.specs.inside.Zeros.{ZerosBefore};
ghost use Rattle.trees.specs.inside.Counting.{Unused, LastIs, UpToLast, Countable, CountedOn};

use crate::zeros::{BLOCK, known_zeros};

// The entries from a place on: their sum, and the carets that they need.
#[derive(Drop)]
struct Tally {
    from: usize,
    sum: usize,
    carets: usize,
}

// Whether a block of zeros ends at a place. Inlined, as `known_zeros` is.
#[inline(always)]
fn zeros_before(e: &[u16], end: usize) -> bool
    ensures { result ≡ true → ZerosBefore e.now end }
{
    end >= BLOCK && known_zeros(e, end - BLOCK, BLOCK) == BLOCK
}

// The entries in front of the blocks of zeros at the table's end. No chain: the place is wanted, not the blocks.
fn whole_blocks(e: &[u16]) -> usize
    ensures { Unused e.now result }
{
    let mut i = e.len();
    while zeros_before(e, i) {
        i -= BLOCK;
    }
    i
}

// The place of the last entry that is not 0.
fn last(e: &[u16]) -> Option<usize>
    ensures { LastIs e.now result }
{
    e.iter().rposition(|x| *x != 0)
}

// The entries up to the last that is not 0.
fn used(e: &[u16]) -> usize
    ensures { UpToLast e.now result }
{
    last(&e[..whole_blocks(e)]).map_or(0, |i| i + 1)
}

impl Tally {
    // The block in front added, entry by entry; an exponent 0 needs no more than the next above 0 does.
    fn add_entries(self, e: &[u16]) -> Tally
        requires { Countable e.now self }
        ensures { CountedOn e.now self result }
    {
        let from = self.from.saturating_sub(BLOCK);
        let mut sum = self.sum;
        let mut carets = self.carets;
        for i in (from..self.from).rev() {
            sum += e[i] as usize;
            carets = carets.max(i + sum + 1);
        }
        Tally { from, sum, carets }
    }

    // The block in front added; zeros change neither the sum nor the carets.
    fn add_block(self, e: &[u16]) -> Tally
        requires { Countable e.now self }
        ensures { CountedOn e.now self result }
    {
        if zeros_before(e, self.from) {
            return Tally {
                from: self.from - BLOCK,
                ..self
            };
        }
        self.add_entries(e)
    }
}

// The carets that a table of exponents needs.
fn needed(e: &[u16]) -> usize
    requires { length e.now ≤ max_carets }
    ensures { result ≡ neededFrom 0 e.now }
{
    let mut tally = Tally {
        from: used(e),
        sum: 0,
        carets: 0,
    };
    // The tally says itself where it stands, so that a `for` would count beside it.
    while tally.from > 0 {
        tally = tally.add_block(e);
    }
    tally.carets
}

// The carets that both tables need.
pub fn carets(b: &[u16], a: &[u16]) -> usize
    requires b_len_bound { length b.now ≤ max_carets }
    requires a_len_bound { length a.now ≤ max_carets }
    ensures { result ≡ carets_of_sides b.now a.now }
{
    needed(b).max(needed(a))
}
