// The line feeds of bytes, and an unended last line, counted. The bytes are gone through with no exit from the loop, so
// that the compiler tests many at once.
ghost use Rattle.std.specs.Prelude.{◌≡◌};
ghost use Rattle.lines.specs.inside.Counting.{count_feeds_value, count_unended_value};

use crate::LINE_FEED;

// How many bytes are line feeds. Counted in the loop: `filter` and `count` took longer in two of three runs.
pub fn count_feeds(bytes: &[u8]) -> usize
    ensures { result ≡ count_feeds_value bytes.now }
{
    let mut n = 0;
    for &x in bytes {
        if x == LINE_FEED {
            n += 1;
        }
    }
    n
}

// 1 where the last byte is no line feed; 0 where it is one, or there is none.
pub fn count_unended(bytes: &[u8]) -> usize
    ensures { result ≡ count_unended_value bytes.now }
{
    match bytes.last() {
        Some(&x) if x != LINE_FEED => 1,
        _ => 0,
    }
}
