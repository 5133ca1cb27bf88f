// Texts with numbers in them.
ghost use Rattle.std.specs.Prelude.{◌≡◌, ◌+◌, ◌<◌, get_or};
ghost use Rattle.appending.specs.inside.Appending.{Appended};
ghost use Rattle.pictures.specs.Texts.{sign_of, behind_sign, filled};

// Number j, and 0 behind the last.
fn number(numbers: &[usize], j: usize) -> u64
    ensures { result ≡ get_or numbers.now j 0 }
{
    numbers.get(j).map_or(0, |n| *n as u64)
}

// The digits of number j for a `~`, and every other sign as it stands.
fn put_sign(x: u8, numbers: &[usize], j: usize, out: &mut [u8], at: usize) -> usize
    ensures { Appended (sign_of numbers.now j x) out.old at out.new result }
{
    if x == b'~' {
        return appending::append_decimal(number(numbers, j), out, at);
    }
    appending::append_byte(x, out, at)
}

// The number of the next of the numbers behind a sign.
fn behind(j: usize, x: u8) -> usize
    requires { j < 18446744073709551615 }
    ensures { result ≡ behind_sign j x }
{
    if x == b'~' { j + 1 } else { j }
}

// A text with numbers: each `~` stands for the next of the numbers. Their index is kept by hand, as `filled` has it.
pub fn fill(text: &[u8], numbers: &[usize], out: &mut [u8], at: usize) -> usize
    ensures { Appended (filled text.now numbers.now) out.old at
        out.new result }
{
    let mut end = at;
    let mut j = 0;
    for &x in text {
        end = put_sign(x, numbers, j, out, end);
        j = behind(j, x);
    }
    appending::append(b"", out, end)
}
