// Zeros of a table of exponents, found by blocks. A block is folded with no exit, so that the compiler tests many
// entries at once.
ghost use Rattle.std.specs.Prelude.{◌≡◌, true, ◌+◌, ◌≤◌, length};
ghost use Rattle.trees.specs.inside.Zeros.{KnownZeros};

// The entries of a block.
pub const BLOCK: usize = 64;

// Whether the entries of the block at a place are all 0. Inlined, as `known_zeros` is.
#[inline(always)]
fn zero_block(e: &[u16], from: usize) -> bool
    requires { from + 64 ≤ length e.now }
    ensures { result ≡ true → KnownZeros e.now from 64 64 }
{
    e[from..from + BLOCK].iter().fold(0, |all, x| all | *x) == 0
}

// How many of the next `most` entries are known to be 0: all of them behind the table's end, a block, or none.
// Inlined: called for each block, it made the count of a short form take half as long again.
#[inline(always)]
pub fn known_zeros(e: &[u16], from: usize, most: usize) -> usize
    ensures { KnownZeros e.now from most result }
{
    if e.len() <= from {
        return most;
    }
    if e.len() - from < BLOCK || !zero_block(e, from) {
        return 0;
    }
    most.min(BLOCK)
}
