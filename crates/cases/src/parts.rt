// Parts of slices, for every count, and whether a part is as it was before a call.

// What a byte and a table entry hold before a call.
pub const BYTE: u8 = 0xEE;

pub const ENTRY: u16 = 0xA5A5;

// The first n entries, or all.
pub fn front<T>(s: &[T], n: usize) -> &[T] {
    s.get(..n).unwrap_or(s)
}

// What stands behind the first n entries.
pub fn behind<T>(s: &[T], n: usize) -> &[T] {
    s.get(n..).unwrap_or(&[])
}

// The first n entries, or all, to be written.
pub fn front_mut<T>(s: &mut [T], n: usize) -> &mut [T] {
    let n = n.min(s.len());
    &mut s[..n]
}

// The byte at a place, or 0.
pub fn byte(s: &[u8], at: usize) -> u8 {
    s.get(at).copied().unwrap_or(0)
}

// A byte at a place, if there is one.
pub fn put(s: &mut [u8], at: usize, x: u8) {
    if let Some(place) = s.get_mut(at) {
        *place = x;
    }
}

// Bytes from a place on, as many as there is room for. The place behind them all.
pub fn put_all(s: &mut [u8], at: usize, bytes: &[u8]) -> usize {
    if let Some(room) = s.get_mut(at..) {
        copying::copy_bytes(bytes, room);
    }
    at.wrapping_add(bytes.len())
}

// Whether the entries from a place on are as before the call.
pub fn kept<T: Copy + PartialEq>(s: &[T], start: usize, before: T) -> bool {
    behind(s, start).iter().all(|x| *x == before)
}
