// The front of a table, copied into another, and bytes, copied to the front of a buffer.
#![tactic(auto)]

ghost use Rattle.std.specs.Prelude.{◌≡◌, ◌++◌, length, min, take, drop};
ghost use Rattle.copying.specs.inside.Copying.{Copied};

// The first n entries of one table, at the front of another; nothing where either has fewer.
#[tactic(auto, using(crate::proofs::Copying::copied_front))]
pub fn copy_front(from: &[u16], table: &mut [u16], n: usize)
    ensures { Copied from.now table.old n table.new }
{
    if from.len() < n || table.len() < n {
        return;
    }
    table[..n].copy_from_slice(&from[..n]);
}

// As many bytes as both have, from the front of one to the front of another; the answer is how many.
// Byte by byte: where the compiler does not see both buffers, it makes a `copy_from_slice` a call of `memmove`, which
// the archive `console_c` would then need from outside.
pub fn copy_bytes(from: &[u8], to: &mut [u8]) -> usize
    ensures count { result ≡ min (length from.now) (length to.old) }
    ensures copied { to.new ≡ take result from.now ++ drop result to.old }
{
    let n = from.len().min(to.len());
    for i in 0..n {
        to[i] = from[i];
    }
    n
}
