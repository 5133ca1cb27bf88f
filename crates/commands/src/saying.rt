// Refusals in words, and a text that is closed: where it does not fit the buffer, that is said instead.
ghost use Rattle.std.specs.Prelude.{◌≡◌};
ghost use Rattle.refusals.specs.Refusals.{number_of};
ghost use Rattle.appending.specs.inside.Appending.{Appended};
ghost use Rattle.commands.specs.Answers.{reason_of, denying, fitted};
ghost use Rattle.commands.specs.Promises.{Says};
ghost use Rattle.commands.specs.inside.Steps.{Closed, Answered, refusal_of};

use crate::{ANSWER, Answer};
use appending::{BEYOND, append, append_decimal};
use refusals::Refusal;

// The reason of a refusal.
fn reason(r: Refusal) -> &'static [u8]
    ensures { result.now ≡ reason_of (number_of r) }
{
    match r {
        Refusal::TooManyLetters => b"more letters than the limit",
        Refusal::NotLetter(_) => b"a byte that is no letter",
        Refusal::BadFrame => b"the two fields do not frame the record",
        Refusal::BadEntry(_) => b"an entry that breaks a rule",
        Refusal::NotReduced(_) => b"the form is not reduced",
        Refusal::ShortTable => b"a table that is too short",
        Refusal::ShortBuffer => b"an output buffer that is too short",
        Refusal::LongSpelling => b"a spelling with more letters than the limit",
        Refusal::Misspelled(_) => b"a misspelled token, or an index above the limit",
        Refusal::LargeExponents => b"exponents whose sizes sum above the limit",
        Refusal::HighIndex => b"a reduced form with an index above the limit",
        Refusal::BadRegister => b"no well-formed register",
        Refusal::HolderFull => b"a holder with four entries",
        Refusal::RegisterFull => b"an entry that does not fit the register",
        Refusal::NotTree => b"no tree within the bound, or no such node or leaf",
    }
}

// The line of a refusal.
pub fn append_refusal(r: Refusal, out: &mut [u8], at: usize) -> usize
    ensures { Appended (refusal_of r) out.old at out.new result }
{
    let named = append(b"refused ", out, at);
    let numbered = append_decimal(r.number() as u64, out, named);
    let parted = append(b" at ", out, numbered);
    let placed = append_decimal(r.place() as u64, out, parted);
    let colon = append(b": ", out, placed);
    let explained = append(reason(r), out, colon);
    append(b"\n", out, explained)
}

// The answer behind a text that was appended from the front of the buffer on.
pub fn close(end: usize, refused: bool, out: &mut [u8; ANSWER]) -> Answer
    ensures { Closed end refused out.old out.new result }
{
    if end == BEYOND {
        return Answer {
            bytes: append(b"an answer that is too long\n", out, 0),
            refused: true,
        };
    }
    Answer {
        bytes: end,
        refused,
    }
}

// A refusal as the answer.
pub fn refuse(r: Refusal, out: &mut [u8; ANSWER]) -> Answer
    ensures { Says (fitted (denying (refusal_of r))) out.new result }
{
    let end = append_refusal(r, out, 0);
    close(end, true, out)
}

// The answer to a reply: its line, or the refusal. Inlined, so that a reply is not stored to be read again.
#[inline(always)]
pub(crate) fn answer(reply: Result<usize, Refusal>, out: &mut [u8; ANSWER]) -> Answer
    ensures { Answered reply out.old out.new result }
{
    match reply {
        Ok(end) => close(end, false, out),
        Err(r) => refuse(r, out),
    }
}
