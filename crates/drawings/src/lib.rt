// The picture of a record's tree pair. A picture has a buffer of its own; what is said in place of one stands in that
// of an answer.
#![tactic(auto)]

ghost use Rattle.std.specs.Prelude.{◌≡◌, ◌≤◌};
ghost use Rattle.trees.specs.Trees.{Tree, carets};
ghost use Rattle.trees.specs.Shapes.{shape};
ghost use Rattle.appending.specs.inside.Appending.{Appended};
ghost use Rattle.pictures.specs.Spans.{drawn};
ghost use Rattle.commands.specs.Answers.{denying, fitted};
ghost use Rattle.commands.specs.Promises.{Says};
ghost use Rattle.drawings.specs.Pictures.{picture_of, DrawnAs};
ghost use Rattle.drawings.specs.inside.Ends.{Finished};

use appending::{BEYOND, append};
use commands::digits::front;
use commands::saying::{close, refuse};
use commands::{ANSWER, Answer, Rooms};
use pictures::DRAWN;

// The bytes of the buffer of a picture.
pub const PICTURE: usize = 286720;

// A picture of two shapes with a length, in characters or as an SVG text.
fn put_picture(characters: bool, minus: &[u8], plus: &[u8], length: usize, out: &mut [u8]) -> usize
    ensures { (t s : Tree) → minus.now ≡ shape t → plus.now ≡ shape s
        → carets t ≡ carets s → carets t ≤ drawn
        → Appended (picture_of characters t s length) out.old 0 out.new result }
{
    if characters {
        pictures::put_characters(minus, plus, length, out, 0)
    } else {
        pictures::put_svg(minus, plus, length, out, 0)
    }
}

// A line in place of a picture.
fn deny(line: &[u8], out: &mut [u8; ANSWER]) -> Answer
    ensures { Says (fitted (denying line.now)) out.new result }
{
    let end = append(line, out, 0);
    close(end, true, out)
}

// What a picture came to, by its end.
fn finish(end: usize, answer: &mut [u8; ANSWER]) -> Result<usize, Answer>
    ensures { Finished end answer.new result }
{
    if end == BEYOND {
        return Err(deny(b"a picture of more than 286720 bytes\n", answer));
    }
    Ok(end)
}

// The picture of a record's pair: characters or SVG, a flag as README and `DrawnAs` have it.
pub fn draw(
    characters: bool,
    record: &[u8],
    rooms: &mut Rooms,
    picture: &mut [u8; PICTURE],
    answer: &mut [u8; ANSWER],
) -> Result<usize, Answer>
    ensures { DrawnAs characters «record».now picture.new answer.new result }
{
    let n = match pairs::record_to_tree_pair(record, &mut rooms.first, &mut rooms.second) {
        Ok(n) => n,
        Err(r) => return Err(refuse(r, answer)),
    };
    if n > DRAWN {
        return Err(deny(b"a pair of more than 300 carets\n", answer));
    }
    let Ok(length) = pairs::record_to_length(record) else {
        unreachable!()
    };
    let size = 2 * n + 1;
    let end = put_picture(
        characters,
        front(&rooms.first, size),
        front(&rooms.second, size),
        length,
        picture,
    );
    finish(end, answer)
}
