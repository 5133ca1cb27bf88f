// The spans of the carets of a tree, read from its shape.
ghost use Rattle.std.specs.Prelude.{◌≡◌, ◌+◌, ◌*◌, ◌<◌, ◌≤◌, length};
ghost use Rattle.std.specs.List.{slice_set};
ghost use Rattle.pictures.specs.Spans.{drawn};
ghost use Rattle.pictures.specs.inside.Tables.{Readable, SpansRead, SpansOf};

use crate::DRAWN;

// The first leaf below a caret, and the number of steps from there to the last.
#[derive(Clone, Copy)]
pub struct CaretSpan {
    pub first: u16,
    pub width: u16,
}

impl CaretSpan {
    // The last leaf.
    pub fn last(self) -> usize
        ensures { result ≡ self.first + self.width }
    {
        self.first as usize + self.width as usize
    }
}

// The spans of the carets of a tree that is drawn, from left to right, and how many these are.
#[derive(Drop)]
pub struct Spans {
    pub table: [CaretSpan; DRAWN],
    pub carets: usize,
    ghost few: { carets ≤ drawn },
}

// Span k of the table, if it has one.
fn keep(table: &mut [CaretSpan; DRAWN], k: usize, first: usize, width: usize)
    requires { (first < 65536) × (width < 65536) }
    ensures { k < drawn → table.new ≡ slice_set table.old k (record { first = first; width = width }) }
{
    if k < DRAWN {
        table[k] = CaretSpan {
            first: first as u16,
            width: width as u16,
        };
    }
}

// The carets of the subtree of a node whose first leaf has the number; answers the place behind the subtree.
fn read(shape: &[u8], at: usize, first: usize, table: &mut [CaretSpan; DRAWN]) -> usize
    requires { Readable shape.now at first }
    ensures { SpansRead shape.now at first table.old table.new result }
{
    if at == shape.len() {
        return at;
    }
    if shape[at] == 0 {
        return at + 1;
    }
    let right = read(shape, at + 1, first, table);
    let caret = first + (right - at - 1) / 2;
    let end = read(shape, right, caret + 1, table);
    keep(table, caret, first, (end - at) / 2);
    end
}

impl Spans {
    // Those of the tree with the shape, which has n carets.
    pub fn of(shape: &[u8], n: usize) -> Spans
        requires short { length shape.now ≤ 2 * drawn + 1 }
        requires few { n ≤ drawn }
        ensures { SpansOf shape.now n result.table result.carets }
    {
        let mut table = [CaretSpan { first: 0, width: 0 }; DRAWN];
        read(shape, 0, 0, &mut table);
        Spans { table, carets: n }
    }
}
