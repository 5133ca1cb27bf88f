// Blocks of bytes without a line feed, passed over. A block is gone through with no exit from the loop, so that the
// compiler tests many bytes at once.
ghost use Rattle.std.specs.Prelude.{◌≡◌, ltb, leb, length, drop};
ghost use Rattle.lines.specs.LineEnds.{until_feed, line_end_value};

use crate::LINE_FEED;

// The bytes of a block.
const BLOCK: usize = 64;

// Whether a line feed stands in a block, as a number: where truth values are joined, the compiler tests byte by byte.
fn has_feed(block: &[u8]) -> bool
    ensures { result ≡ ltb (until_feed block.now) (length block.now) }
{
    let found = block
        .iter()
        .fold(0, |found, &x| found | u8::from(x == LINE_FEED));
    found == 1
}

// Whether a whole block stands at a place, and no line feed in it.
fn is_clear(bytes: &[u8], from: usize) -> bool
    ensures { result ≡ leb 64 (until_feed (drop from bytes.now)) }
{
    let Some(rest) = bytes.get(from..) else {
        return false;
    };
    let Some(block) = rest.get(..BLOCK) else {
        return false;
    };
    !has_feed(block)
}

// The place behind the blocks without a line feed: the line that is begun at it ends where it did.
// Kept a `while`: over `chunks_exact` the place would still be counted by hand, a block at a time.
pub fn pass_blocks(bytes: &[u8], from: usize) -> usize
    ensures { line_end_value bytes.now result ≡ line_end_value bytes.now from }
{
    let mut i = from;
    while is_clear(bytes, i) {
        i += BLOCK;
    }
    i
}
