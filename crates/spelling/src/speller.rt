// The state of the speller, handed on by value: each method takes one power and hands back the next count of letters.
// Between the powers of index 1 and above stand letters `a` and `A` alone, and of these the lesser number is deleted;
// so the state holds how many letters `a` are due.
ghost use Rattle.std.specs.Prelude.{◌≡◌, cond, [], ◌+◌, ◌-◌, ◌<◌, ◌≤◌, ◌^◌, length, replicate};
ghost use Rattle.group.specs.Letters.{'b, 'B};
ghost use Rattle.group.specs.Bytes.{bytes_of};
ghost use Rattle.lists.specs.inside.Writes.{Wrote};
ghost use Rattle.spelling.specs.Runs.{put_run, distance};
ghost use Rattle.spelling.specs.inside.RunLetters.{turn};
ghost use Rattle.spelling.specs.inside.Steps.{behind_power, WroteRuns};

use refusals::GeneratorIndex;

// How many letters are spelled, and how many letters `a` are due behind them.
#[derive(Clone, Copy)]
pub struct Speller {
    pub count: usize,
    pub due: usize,
}

// n times a letter from a place on; the answer is the place behind them.
fn put_letters(word: &mut [u8], at: usize, letter: u8, n: usize) -> usize
    requires { at + n ≤ length word.old }
    ensures { Wrote (replicate n letter) word.old at word.new result }
{
    let end = at + n;
    word[at..end].fill(letter);
    end
}

// What m letters `a` and then n letters `A` leave.
pub fn put_turn(word: &mut [u8], at: usize, m: usize, n: usize) -> usize
    requires { at + distance m n ≤ length word.old }
    ensures { Wrote (bytes_of (turn m n)) word.old at word.new result }
{
    if m < n {
        return put_letters(word, at, b'A', n - m);
    }
    put_letters(word, at, b'a', m - n)
}

impl Speller {
    // Behind x_0^e, which begins the word: its letters `a` are due.
    pub fn new(e: u16) -> Self
        ensures { (result.count ≡ 0) × (result.due ≡ e) }
    {
        Self {
            count: 0,
            due: usize::from(e),
        }
    }

    // Behind x_k^e or its inverse; exponent 0 is no power.
    pub fn power(self, k: GeneratorIndex, e: u16) -> Self
        requires k_nonzero { 0 < k.0 }
        requires e_bound { (behind_power self (k.0 - 1) e).count < 2 ^ 64 }
        ensures { result ≡ behind_power self (k.0 - 1) e }
    {
        if e == 0 {
            return self;
        }
        let due = usize::from(k.0) - 1;
        Self {
            count: self.count + self.due.abs_diff(due) + usize::from(e),
            due,
        }
    }

    // The same, with its letters written behind those so far: e times `b`, or `B` for the inverse. A flag, no letter:
    // the contract (`put_run`) speaks of `b` and `B`, and of a letter it would have to ask that it is one of them.
    pub fn write(self, k: GeneratorIndex, e: u16, inverse: bool, word: &mut [u8]) -> Self
        requires k_nonzero { 0 < k.0 }
        requires e_in_bounds { (behind_power self (k.0 - 1) e).count ≤ length word.old }
        ensures { WroteRuns (put_run (k.0 - 1) (cond inverse 'B 'b) e []) self word.old
            word.new result }
    {
        if e == 0 {
            return self;
        }
        let due = usize::from(k.0) - 1;
        let at = put_turn(word, self.count, self.due, due);
        let letter = if inverse { b'B' } else { b'b' };
        let count = put_letters(word, at, letter, usize::from(e));
        Self { count, due }
    }
}
