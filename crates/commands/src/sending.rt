// Words and texts: the record of a line, and its item.
ghost use Rattle.std.specs.Prelude.{◌≡◌, ◌∷◌, ◌<◌};
ghost use Rattle.refusals.specs.Refusals.{number_of, place_of};
ghost use Rattle.refusals.specs.Outcomes.{reply_of};
ghost use Rattle.fields.specs.Fields.{two_bytes, field};
ghost use Rattle.wordlists.specs.Items.{refused_tag};
ghost use Rattle.appending.specs.Hexadecimal.{hex_of};
ghost use Rattle.commands.specs.Answers.{line_of, denying, fitted};
ghost use Rattle.commands.specs.Words.{is_text_value, LineRecord, long_text, is_long_value, item_said};
ghost use Rattle.commands.specs.Promises.{Says, FittedRecord};
ghost use Rattle.commands.specs.inside.Steps.{front_of, PutRecord};

use crate::digits::front;
use crate::replies::put_hex;
use crate::saying::{answer, close};
use crate::{ANSWER, Answer, Lent, TEXT};
use appending::append;
use refusals::Refusal;

// Whether a line is read as a text: it begins with `x`.
pub fn is_text(line: &[u8]) -> bool
    ensures { result ≡ is_text_value line.now }
{
    line.starts_with(b"x")
}

// The record of a line, at the front of the buffer that is lent.
pub fn find_record(line: &[u8], lent: &mut Lent) -> Result<usize, Refusal>
    ensures { LineRecord line.now (front_of (reply_of result) lent.new.«record») }
{
    if is_text(line) {
        return notation::text_to_record(line, &mut lent.b, &mut lent.a, &mut lent.record);
    }
    words::word_to_record(line, &mut lent.b, &mut lent.a, &mut lent.record)
}

// A text that is too long to be read.
fn refuse_long(out: &mut [u8; ANSWER]) -> Answer
    ensures { Says (fitted (denying long_text)) out.new result }
{
    let end = append(b"text of more than 131071 bytes\n", out, 0);
    close(end, true, out)
}

// Whether a line is such a text.
fn is_long(line: &[u8]) -> bool
    ensures { result ≡ is_long_value line.now }
{
    is_text(line) && line.len() > TEXT
}

// The end of the line that holds the record of a line in hexadecimal, or the line's refusal.
fn put_record(line: &[u8], lent: &mut Lent, out: &mut [u8; ANSWER]) -> Result<usize, Refusal>
    ensures { PutRecord line.now out.old out.new result }
{
    let n = find_record(line, lent)?;
    Ok(put_hex(front(&lent.record, n), out))
}

// The record of a line, in hexadecimal.
pub fn send(line: &[u8], lent: &mut Lent, out: &mut [u8; ANSWER]) -> Answer
    ensures { FittedRecord line.now out.new result }
{
    if is_long(line) {
        return refuse_long(out);
    }
    let reply = put_record(line, lent, out);
    answer(reply, out)
}

// The item of a refused word: tag 0F hex, length 3, the number and the place.
fn say_item(r: Refusal, out: &mut [u8; ANSWER]) -> Answer
    requires { place_of r < 65536 }
    ensures { Says (fitted (denying (line_of (hex_of (field refused_tag (number_of r ∷ two_bytes (place_of r)))))))
        out.new result }
{
    let [high, low] = (r.place() as u16).to_be_bytes();
    let end = put_hex(&[15, 0, 3, r.number(), high, low], out);
    close(end, true, out)
}

// The item of a line, in hexadecimal.
pub fn list(line: &[u8], lent: &mut Lent, out: &mut [u8; ANSWER]) -> Answer
    ensures { Says (fitted (item_said line.now)) out.new result }
{
    match words::word_to_record(line, &mut lent.b, &mut lent.a, &mut lent.record) {
        Ok(n) => close(put_hex(front(&lent.record, n), out), false, out),
        Err(r) => say_item(r, out),
    }
}
