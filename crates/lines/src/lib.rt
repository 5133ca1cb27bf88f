// The lines of bytes: where a line ends, how many lines and bytes there are, and the lines of an input that comes in
// parts, whose bytes are kept in a buffer, as many as there is room for.
#![tactic(auto)]

ghost use Rattle.std.specs.Prelude.{◌≡◌, length, drop};
ghost use Rattle.lines.specs.Lines.{lines_of, line_bytes};
ghost use Rattle.lines.specs.LineEnds.{line_end_value};
ghost use Rattle.lines.specs.inside.Taking.{TookLine};

use crate::blocks::pass_blocks;
use crate::counting::{count_feeds, count_unended};
use crate::keeping::keep_all;

mod blocks;
mod counting;
mod keeping;

// The byte that ends a line.
const LINE_FEED: u8 = 10;

// The next place in the part, how many bytes of the line are held, and whether the line ended.
// Kept a flag: the place and the count stand whether or not it did.
#[derive(Clone, Copy)]
pub struct Fed {
    pub next: usize,
    pub held: usize,
    pub ended: bool,
}

// How many lines there are, and the bytes of them all, line ends left out.
#[derive(Clone, Copy)]
pub struct Counted {
    pub lines: usize,
    pub bytes: usize,
}

// The place of the first line feed from a place on, or the end. Blocks without one are passed over first.
pub fn line_end(bytes: &[u8], from: usize) -> usize
    ensures { result ≡ line_end_value bytes.now from }
{
    let start = pass_blocks(bytes, from);
    let Some(rest) = bytes.get(start..) else {
        return start;
    };
    let feed = rest.iter().position(|&x| x == LINE_FEED);
    start + feed.unwrap_or(rest.len())
}

// The lines of bytes, counted.
pub fn count_lines(bytes: &[u8]) -> Counted
    ensures lines_value { result.lines ≡ length (lines_of bytes.now) }
    ensures bytes_value { result.bytes ≡ line_bytes (lines_of bytes.now) }
{
    let feeds = count_feeds(bytes);
    let unended = count_unended(bytes);
    Counted {
        lines: feeds + unended,
        bytes: bytes.len() - feeds,
    }
}

// The bytes of a part from a place on, up to and with the first line feed, or all of them.
pub fn feed(part: &[u8], from: usize, line: &mut [u8], held: usize) -> Fed
    ensures { TookLine (drop from part.now) from line.old held line.new result }
{
    let end = line_end(part, from);
    let held = keep_all(line, held, part.get(from..end).unwrap_or(&[]));
    if end < part.len() {
        Fed {
            next: end + 1,
            held,
            ended: true,
        }
    } else {
        Fed {
            next: end,
            held,
            ended: false,
        }
    }
}
