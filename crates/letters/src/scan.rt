// The scan for a byte that is no letter. A word of letters only is gone through with no exit from the loop, so that the
// compiler tests many bytes at once; only where a byte is none, the first such is looked for.
ghost use Rattle.std.specs.Prelude.{◌≡◌, ◌&&◌, fold, true, not, position};
ghost use Rattle.group.specs.Bytes.{read_word};
ghost use Rattle.letters.specs.inside.Scanning.{is_letter_at, not_letter_in};

// Whether a byte is a letter. A `matches!` is compiled to four comparisons of a byte, and this to one.
fn is_letter(byte: u8) -> bool
    ensures { result ≡ is_letter_at byte }
{
    byte == b'a' || byte == b'A' || byte == b'b' || byte == b'B'
}

// Whether all bytes are letters.
fn all_letters(word: &[u8]) -> bool
    ensures { result ≡ fold (λ good c. good && is_letter_at c) true word.now }
{
    word.iter().fold(true, |good, &byte| good & is_letter(byte))
}

// The offset of the first byte that is no letter.
fn first_bad(word: &[u8]) -> Option<usize>
    ensures { result ≡ position (λ byte. not (is_letter_at byte)) word.now }
{
    word.iter().position(|&byte| !is_letter(byte))
}

// The same; whether all bytes are letters is asked first.
pub fn not_letter(word: &[u8]) -> Option<usize>
    ensures { result ≡ not_letter_in (read_word word.now) }
{
    if all_letters(word) {
        return None;
    }
    first_bad(word)
}
