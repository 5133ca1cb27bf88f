// The spheres of the group: how many distinct records have length n, against Table 3 of document 001.
//
// The elements are walked along words, so that each is met once:
// - A child of a word is the word with a letter behind it, if that makes the element one longer and if no letter before
//   the inverse of that letter, in the order a, A, b, B, put behind the child, makes the element shorter again.
// - Complete: unless its length is 0, which the identity alone has, some letter put behind an element makes it one
//   shorter (geodesics, SomeLetterLowers and ZeroIsIdentity). So an element of length n + 1 is the child of the element
//   of length n to which the first such letter leads, and of no other.
// - Distinct: by that, each element of length n is met by one word; equal records are one element (claims, Demand3).
// The length is that of `record_to_length`, on the record that `word_to_record` writes, for each word by itself.
ghost use Rattle.std.specs.Prelude.{◌≤◌, ◌<◌};

use cases::{counts, parts};

// The radius of the last sphere.
const RADIUS: usize = 11;

// The most letters of a word that is asked for: one more than the last sphere's.
const LETTERS: usize = RADIUS + 1;

// The letters; those of a pair are inverses.
const ORDER: [u8; 4] = [b'a', b'A', b'b', b'B'];

// The letters of a word, and how many elements of each length have been met.
#[derive(Clone, Copy)]
struct Walk {
    word: [u8; LETTERS],
    counts: [u64; LETTERS],
}

impl Walk {
    // The length of the first n letters and behind them letter k: that of their record.
    fn length(&mut self, n: usize, k: usize) -> usize
        requires { (n ≤ 11) × (k < 4) }
    {
        self.word[n] = ORDER[k];
        let mut b = [0u16; LETTERS + 1];
        let mut a = [0u16; LETTERS + 1];
        let mut record = [0u8; 6 + 4 * LETTERS];
        let letters = parts::front(&self.word, n + 1);
        let written = thompson::thompson_word_to_record(letters, &mut b, &mut a, &mut record);
        let length = thompson::thompson_record_to_length(parts::front(
            &record,
            written.value as usize,
        ));
        length.value as usize
    }

    // Whether the word of the first n letters and letter k is a child of the word of the first n letters. The inverse
    // of letter k is the other one of its pair.
    fn is_child(&mut self, n: usize, k: usize) -> bool
        requires { (n ≤ 10) × (k < 4) }
    {
        if self.length(n, k) != n + 1 {
            return false;
        }
        for j in 0..k ^ 1 {
            if self.length(n + 1, j) <= n {
                return false;
            }
        }
        true
    }

    // The elements below the word of the first n letters, by their lengths.
    fn meet(&mut self, n: usize) {
        if n >= RADIUS {
            return;
        }
        for k in 0..4 {
            if self.is_child(n, k) {
                self.counts[n + 1] = self.counts[n + 1] % 1000000 + 1;
                self.meet(n + 1);
            }
        }
    }
}

// `growth`: how many elements have each length up to RADIUS.
pub fn print() {
    let mut walk = Walk {
        word: [b'a'; LETTERS],
        counts: [0; LETTERS],
    };
    walk.counts[0] = 1;
    walk.meet(0);
    for count in walk.counts {
        counts::print_number(b" ", count);
    }
}
