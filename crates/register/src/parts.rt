// Parts of slices, for every count: `get` with what stands for a part that is not there.

// The first n bytes, or all: a line, which `commands` and `cases` have too, and no crate is below all three.
pub fn front(s: &[u8], n: usize) -> &[u8] {
    s.get(..n).unwrap_or(s)
}

// The bytes from a place up to another, as far as there are any.
pub fn between(s: &[u8], start: usize, end: usize) -> &[u8] {
    front(s.get(start..).unwrap_or(&[]), end.wrapping_sub(start))
}
