// The numbers of the leaves in characters, digit below digit.
ghost use Rattle.std.specs.Prelude.{◌≡◌, ◌+◌, ◌*◌, ◌<◌, ◌≤◌};
ghost use Rattle.appending.specs.inside.Appending.{Appended};
ghost use Rattle.pictures.specs.Spans.{drawn};
ghost use Rattle.pictures.specs.Characters.{digit_of, digit_cell, digit_row, tens_rows, number_rows};

// The digit of k at a place, 1, 10 or 100, or a blank: numbers stand in columns, which no form of the library writes.
fn digit(k: usize, place: usize) -> u8
    requires { 0 < place }
    ensures { result ≡ digit_of place k }
{
    if place <= k {
        b'0' + ((k / place) % 10) as u8
    } else if place == 1 {
        b'0'
    } else {
        b' '
    }
}

// What stands in a column below the leaves.
fn cell(place: usize, c: usize) -> u8
    requires { 0 < place }
    ensures { result ≡ digit_cell place c }
{
    if c % 2 == 0 {
        digit(c / 2, place)
    } else {
        b' '
    }
}

// The digits of the numbers 0 to n at a place.
fn put_digits(n: usize, place: usize, out: &mut [u8], at: usize) -> usize
    requires { (n ≤ drawn) × (0 < place) }
    ensures { Appended (digit_row n place) out.old at out.new result }
{
    let mut end = at;
    for c in 0..2 * n + 1 {
        end = appending::append_byte(cell(place, c), out, end);
    }
    appending::append(b"\n", out, end)
}

// The tens, if any, and the units.
fn put_tens(n: usize, out: &mut [u8], at: usize) -> usize
    requires { n ≤ drawn }
    ensures { Appended (tens_rows n) out.old at out.new result }
{
    if n < 10 {
        return put_digits(n, 1, out, at);
    }
    let e1 = put_digits(n, 10, out, at);
    put_digits(n, 1, out, e1)
}

// The numbers 0 to n.
pub fn put_numbers(n: usize, out: &mut [u8], at: usize) -> usize
    requires { n ≤ drawn }
    ensures { Appended (number_rows n) out.old at out.new result }
{
    if n < 100 {
        return put_tens(n, out, at);
    }
    let e1 = put_digits(n, 100, out, at);
    put_tens(n, out, e1)
}
