// The questions about a record: the end of the line that answers each, or the record's refusal.
ghost use Rattle.commands.specs.declared.Question.TheVariants.{Check, Word, Text, Length, LabelLength, Pair};
ghost use Rattle.appending.specs.inside.Appending.{Appended};
ghost use Rattle.commands.specs.Answers.{line_of};
ghost use Rattle.commands.specs.Records.{pair_line, record_said};
ghost use Rattle.commands.specs.inside.Steps.{Replied};

use crate::digits::{append_digits, front};
use crate::replies::{put_line, put_number};
use crate::{ANSWER, ROOM, Rooms};
use appending::{append, append_decimal};
use refusals::Refusal;

// Whether it is accepted.
pub fn check(record: &[u8], out: &mut [u8; ANSWER]) -> Result<usize, Refusal>
    ensures { Replied (record_said Check «record».now) out.old out.new result }
{
    records::check_record(record)?;
    Ok(put_line(b"accepted", out))
}

// A word of the element. This and the three below differ in the call, and each contract names its question: two lines
// each, so no function takes the call.
pub fn spell(record: &[u8], word: &mut [u8; ROOM], out: &mut [u8; ANSWER]) -> Result<usize, Refusal>
    ensures { Replied (record_said Word «record».now) out.old out.new result }
{
    let n = spelling::record_to_word(record, word)?;
    Ok(put_line(front(word, n), out))
}

// The reduced form in subscript notation.
pub fn write(record: &[u8], text: &mut [u8; ROOM], out: &mut [u8; ANSWER]) -> Result<usize, Refusal>
    ensures { Replied (record_said Text «record».now) out.old out.new result }
{
    let n = notation::record_to_text(record, text)?;
    Ok(put_line(front(text, n), out))
}

// The length by Fordham's weights.
pub fn measure(record: &[u8], out: &mut [u8; ANSWER]) -> Result<usize, Refusal>
    ensures { Replied (record_said Length «record».now) out.old out.new result }
{
    let n = pairs::record_to_length(record)?;
    Ok(put_number(n, out))
}

// The length by Table 1.
pub fn measure_labels(record: &[u8], out: &mut [u8; ANSWER]) -> Result<usize, Refusal>
    ensures { Replied (record_said LabelLength «record».now) out.old out.new result }
{
    let n = pairs::record_to_label_length(record)?;
    Ok(put_number(n, out))
}

// N and two shapes, a digit for each byte.
fn put_pair(n: usize, minus: &[u8], plus: &[u8], out: &mut [u8; ANSWER]) -> usize
    ensures { Appended (line_of (pair_line n minus.now plus.now)) out.old 0 out.new result }
{
    let counted = append_decimal(n as u64, out, 0);
    let parted = append(b" ", out, counted);
    let first = append_digits(minus, out, parted);
    let again = append(b" ", out, first);
    let second = append_digits(plus, out, again);
    append(b"\n", out, second)
}

// N and the two shapes.
pub fn pair(record: &[u8], rooms: &mut Rooms, out: &mut [u8; ANSWER]) -> Result<usize, Refusal>
    ensures { Replied (record_said Pair «record».now) out.old out.new result }
{
    let n = pairs::record_to_tree_pair(record, &mut rooms.first, &mut rooms.second)?;
    let minus = front(&rooms.first, 2 * n + 1);
    let plus = front(&rooms.second, 2 * n + 1);
    Ok(put_pair(n, minus, plus, out))
}
