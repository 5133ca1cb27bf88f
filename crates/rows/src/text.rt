// Numbers at a place of a buffer.
ghost use Rattle.std.specs.Prelude.{[], ◌∷◌, ◌++◌, ◌+◌, ◌≤◌, length};
ghost use Rattle.lists.specs.inside.Writes.{Wrote};
ghost use Rattle.numerals.specs.Decimals.{decimal};
ghost use Rattle.rows.specs.inside.Steps.{number_size};

// A number in decimal digits, and a byte behind it.
pub fn put_number(n: u64, behind: u8, out: &mut [u8], at: usize) -> usize
    requires { at + number_size ≤ length out.old }
    ensures { Wrote (decimal n ++ (behind ∷ [])) out.old at out.new result }
{
    let end = printing::put_decimal(n, out, at);
    out[end] = behind;
    end + 1
}
