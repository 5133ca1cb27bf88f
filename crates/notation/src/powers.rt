// The powers of a text, as its reader leaves them.
ghost use Rattle.std.specs.Prelude.{◌≡◌, ◌≤◌, length};
ghost use Rattle.group.specs.Limits.{limit};
ghost use Rattle.group.specs.Powers.{exponent_sizes};
ghost use Rattle.group.specs.inside.PowerLists.{powers_in};
ghost use Rattle.notation.specs.inside.Ranges.{Ranged, Ranged-prop};

// Powers in three slices of one length, all in range, and what the sizes of their exponents sum to, at most the limit.
// Slices of numbers, the sides too, as `forest::fill_powers` promises its result of them (`FilledPowers`).
#[derive(Clone, Copy)]
pub struct Powers<'a> {
    pub indices: &'a [u16],
    pub exponents: &'a [u16],
    pub sides: &'a [u8],
    pub sum: usize,
    ghost exponents_length: { length exponents.now ≡ length indices.now },
    ghost sides_length: { length sides.now ≡ length indices.now },
    ghost ranged: { Ranged indices.now exponents.now sides.now } by { Ranged-prop indices.now exponents.now sides.now },
    ghost small: { sum ≤ limit },
    ghost summed: { sum ≡ exponent_sizes (powers_in indices.now exponents.now sides.now) },
}
