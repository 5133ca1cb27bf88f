// The pages of the words of the command, each with an example.

// The page of `record`.
const RECORD: &[u8] = b"\
thompsonf record [WORD]
The record of a word in letters a A b B or, where it begins with x, of a text: x0^2 x1 x0^-1.
  thompsonf record abA   010008000000010001000102000400000001
";

// The page of `same`.
const SAME: &[u8] = b"\
thompsonf same [WORD WORD]
Whether two words are the same element, inverse or different. A line has both, a blank between.
  thompsonf same BAbab AAbaa   same
";

// The page of `list`.
const LIST: &[u8] = b"\
thompsonf list [WORD]
The item of each line in a list: the record of the word, or 0f0003, the refusal's number and place.
  thompsonf list axb   0f0003020001
";

// The page of `receipts`.
const RECEIPTS: &[u8] = b"\
thompsonf receipts [FROM]
A receipt for each line of standard input: line number, letters, carets, length, record.
Lines are numbered from FROM, or from 1, and then a header stands in front.
";

// The page of `help`.
const HELP: &[u8] = b"\
thompsonf help [WORD]
All words of the command, or one of them.
";

// The page of `draw`.
const DRAW: &[u8] = b"\
thompsonf draw [--text] [RECORD]
thompsonf draw [--text] --word [WORD]
A picture of the tree pair: an SVG text or, with --text, characters; at most 300 carets.
  thompsonf draw --word b > b.svg
";

// The page of `word`.
const WORD: &[u8] = b"\
thompsonf word [RECORD]
A word of the element: the spelling of its reduced form. It is not always a shortest one.
  thompsonf word 01000400010001020000   b
";

// The page of `text`.
const TEXT: &[u8] = b"\
thompsonf text [RECORD]
The reduced form in subscript notation; that of the identity is empty.
  thompsonf text 010008000000010001000102000400000001   x0 x1 x0^-1
";

// The page of `pair`.
const PAIR: &[u8] = b"\
thompsonf pair [RECORD]
The number of carets, then the shapes of T- and T+: node before left before right, 1 a caret.
  thompsonf pair 01000400010001020000   3 1010100 1011000
";

// The page of `check`.
const CHECK: &[u8] = b"\
thompsonf check [RECORD]
Says accepted where the bytes are a record, or the refusal with its number, place and reason.
  thompsonf check 01000400010001020000   accepted
";

// The page of `length`.
const LENGTH: &[u8] = b"\
thompsonf length [RECORD]
The length of the element: the least number of letters of a word of it, by Fordham's weights.
  thompsonf length 01000400010001020000   1
";

// The page of `label-length`.
const LABEL_LENGTH: &[u8] = b"\
thompsonf label-length [RECORD]
The same number by Table 1 of document 001.
  thompsonf label-length 01000400010001020000   1
";

// The page of a word of the command.
pub fn page(word: &[u8]) -> Option<&'static [u8]> {
    match word {
        b"record" => Some(RECORD),
        b"same" => Some(SAME),
        b"list" => Some(LIST),
        b"receipts" => Some(RECEIPTS),
        b"help" => Some(HELP),
        b"draw" => Some(DRAW),
        b"word" => Some(WORD),
        b"text" => Some(TEXT),
        b"pair" => Some(PAIR),
        b"check" => Some(CHECK),
        b"length" => Some(LENGTH),
        b"label-length" => Some(LABEL_LENGTH),
        _ => None,
    }
}
