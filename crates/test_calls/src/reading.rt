// What a line gives to a call: bytes, and how much memory is lent.
use cases::fields::Sizes;
use cases::{fields, parts};

// What is left of a line. It begins with a mark, any byte, and goes on with a piece, up to the next byte below `0`.
#[derive(Clone, Copy)]
pub struct Row<'a> {
    left: &'a [u8],
}

impl<'a> Row<'a> {
    // A line from a place on.
    pub fn behind(line: &'a [u8], at: usize) -> Row<'a> {
        Row {
            left: parts::behind(line, at),
        }
    }

    // The piece behind the mark, read.
    fn piece(&mut self) -> &'a [u8] {
        let behind = parts::behind(self.left, 1);
        let n = behind
            .iter()
            .position(|&x| x < b'0')
            .unwrap_or(behind.len());
        self.left = parts::behind(behind, n);
        parts::front(behind, n)
    }

    // A number: the last six of its decimal digits count.
    fn number(&mut self) -> usize {
        self.piece()
            .iter()
            .fold(0, |value, x| value % 100000 * 10 + usize::from(x % 16))
    }

    // A part of a field behind k digits: digits, and behind a star how many times they stand there.
    fn part(&mut self, out: &mut [u8], k: usize) -> usize {
        let digits = self.piece();
        let times = if self.left.first() == Some(&b'*') {
            self.number()
        } else {
            1
        };
        let mut end = put_digits(digits, out, k);
        for _ in 1..times {
            end = put_digits(digits, out, end);
        }
        end
    }

    // The bytes of a field, and how many: parts with a dot between, two digits a byte; `_`, a lone digit, is no byte.
    fn bytes(&mut self, out: &mut [u8]) -> usize {
        let mut k = self.part(out, 0);
        for _ in 0..self.left.len() {
            if self.left.first() != Some(&b'.') {
                break;
            }
            k = self.part(out, k);
        }
        k / 2
    }
}

// Hexadecimal digits behind k others, two a byte, as far as there is room. How many there are then.
fn put_digits(digits: &[u8], out: &mut [u8], k: usize) -> usize {
    for (i, x) in digits.iter().enumerate() {
        if let Some(byte) = out.get_mut(k.wrapping_add(i) / 2) {
            *byte = *byte % 16 * 16 + (fields::hexadecimal(&[*x]) % 16) as u8;
        }
    }
    k.wrapping_add(digits.len())
}

// Bytes, and how much is lent with them.
#[derive(Clone, Copy)]
pub struct Given<'a> {
    pub bytes: &'a [u8],
    pub lent: Sizes,
}

impl<'a> Given<'a> {
    // Four fields of a row: the bytes, which are put into a buffer, and three sizes.
    pub fn read(row: &mut Row, buffer: &'a mut [u8]) -> Given<'a> {
        let n = row.bytes(buffer);
        let (b, a, out) = (row.number(), row.number(), row.number());
        Given {
            bytes: parts::front(buffer, n),
            lent: Sizes { b, a, out },
        }
    }
}
