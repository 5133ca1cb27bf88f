// The items of the lines of a list, with scratch that is lent once for all of them.
ghost use Rattle.std.specs.Prelude.{◌∷◌, ◌≤◌, ◌<◌, length};
ghost use Rattle.lists.specs.inside.Writes.{Wrote};
ghost use Rattle.fields.specs.Fields.{two_bytes, field};
ghost use Rattle.refusals.specs.Refusals.{number_of, place_of};
ghost use Rattle.refusals.specs.Memory.{memory};
ghost use Rattle.wordlists.specs.Items.{refused_tag};
ghost use Rattle.wordlists.specs.inside.Steps.{item_size, ItemRoom, ItemPut, ListRoom, ItemsPut};

use forest::Scratch;
use refusals::Refusal;

// 0F hex, the tag of a refused word.
const REFUSED_TAG: u8 = 15;

// The field of a refused word, at the front of the output: its number in one byte and its place in two.
fn put_refusal(r: Refusal, out: &mut [u8]) -> usize
    requires { (item_size ≤ length out.old) × (place_of r < 65536) }
    ensures { Wrote (field refused_tag (number_of r ∷ two_bytes (place_of r))) out.old 0
        out.new result }
{
    let [high, low] = (r.place() as u16).to_be_bytes();
    let body = [r.number(), high, low];
    fields::put_field(REFUSED_TAG, &body, out).unwrap()
}

// The item of a line, at the front of the output, which is lent to the call on the word.
fn put_item(
    line: &[u8],
    b_table: &mut [u16],
    a_table: &mut [u16],
    out: &mut [u8],
    scratch: &mut Scratch,
) -> usize
    requires { ItemRoom line.now (memory b_table.old a_table.old out.old) }
    ensures { ItemPut line.now
        (memory b_table.old a_table.old out.old)
        (memory b_table.new a_table.new out.new) result }
{
    match words::record_in(line, b_table, a_table, out, scratch) {
        Ok(n) => n,
        Err(r) => put_refusal(r, out),
    }
}

// The items of all lines, from the front of the output on. The number of bytes written.
// Kept a `while`: the place goes from line to line, and `lines::line_end` passes many bytes at once, unlike `split`.
pub fn put_items(
    list: &[u8],
    b_table: &mut [u16],
    a_table: &mut [u16],
    out: &mut [u8],
    scratch: &mut Scratch,
) -> usize
    requires { ListRoom list.now (memory b_table.old a_table.old out.old) }
    ensures { ItemsPut list.now
        (memory b_table.old a_table.old out.old)
        (memory b_table.new a_table.new out.new) result }
{
    let mut at = 0;
    let mut written = 0;
    while at < list.len() {
        let end = lines::line_end(list, at);
        written += put_item(
            &list[at..end],
            b_table,
            a_table,
            &mut out[written..],
            scratch,
        );
        at = end + 1;
    }
    written
}
