// Numbers and entries of a row, with a comma between.
use cases::fields;

// What a number holds before a call.
pub const NUMBER: u64 = 0xEEEEEEEEEEEEEEEE;

// What a row can tell one behind another: numbers in hexadecimal digits, entries in decimal ones.
pub trait Value {
    // The value of digits.
    fn read(digits: &[u8]) -> Self;
}

impl Value for u64 {
    fn read(digits: &[u8]) -> u64 {
        fields::hexadecimal(digits)
    }
}

impl Value for u16 {
    fn read(digits: &[u8]) -> u16 {
        (fields::number(digits) % 65536) as u16
    }
}

// The values in a field, up to the first empty one and as many as there is room for, and how many: the count is the
// place of the next, too, so it is kept by hand.
pub fn put<T: Value + Copy>(field: &[u8], out: &mut [T]) -> usize {
    let mut n = 0;
    for digits in field.split(|&x| x < b'0') {
        if digits.is_empty() || n >= out.len() {
            return n;
        }
        out[n] = T::read(digits);
        n += 1;
    }
    n
}
