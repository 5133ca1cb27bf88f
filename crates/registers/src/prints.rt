// Fingerprints of records, and their two places in a table.
ghost use Rattle.std.specs.Prelude.{◌≡◌, ◌<◌};
ghost use Rattle.registers.specs.inside.Steps.{fingerprint, low_place_value, high_place_value, table_size};

use crate::TABLE;

// A fingerprint of bytes.
pub fn print_of(s: &[u8]) -> u32
    ensures { result ≡ fingerprint s.now }
{
    s.iter().fold(
        0,
        |x: u32, &b| x.wrapping_mul(16777619).wrapping_add(b as u32 + 1),
    )
}

// The place by the low half of a fingerprint.
pub fn low_place(x: u32) -> usize
    ensures { (result ≡ low_place_value x) × (result < table_size) }
{
    x as usize % TABLE
}

// The place by its high half.
pub fn high_place(x: u32) -> usize
    ensures { (result ≡ high_place_value x) × (result < table_size) }
{
    x as usize / TABLE
}
