// A record that was read from hexadecimal, or characters that are none.
ghost use Rattle.hexadecimal.specs.Taking.{ended_as};
ghost use Rattle.commands.specs.Answers.{denying, fitted};
ghost use Rattle.commands.specs.Records.{stray_text, hex_said};
ghost use Rattle.commands.specs.Promises.{Says};

use crate::digits::front;
use crate::saying::close;
use crate::{ANSWER, Answer, Question, Rooms, ask};
use appending::{append, append_decimal};
use hexadecimal::Amid;

// A character that is out of place.
fn refuse_stray(offset: u64, out: &mut [u8; ANSWER]) -> Answer
    ensures { Says (fitted (denying (stray_text offset))) out.new result }
{
    let named = append(b"not hexadecimal at ", out, 0);
    let placed = append_decimal(offset, out, named);
    let end = append(b"\n", out, placed);
    close(end, true, out)
}

// The answer to a question about a line in hexadecimal, behind its last character.
pub fn ask_read(
    question: Question,
    bytes: &[u8],
    amid: Amid,
    rooms: &mut Rooms,
    out: &mut [u8; ANSWER],
) -> Answer
    ensures { Says (fitted (hex_said question (ended_as bytes.now amid))) out.new result }
{
    if amid.stray || amid.high.is_some() {
        return refuse_stray(amid.offset, out);
    }
    ask(question, front(bytes, amid.held), rooms, out)
}
