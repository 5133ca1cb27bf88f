// A tree pair in characters. Leaf k stands in column 2k; row h is the h-th above the leaves.
ghost use Rattle.std.specs.Prelude.{◌≡◌, ◌+◌, ◌*◌, ◌<◌, ◌≤◌, length};
ghost use Rattle.appending.specs.inside.Appending.{Appended};
ghost use Rattle.trees.specs.Trees.{Tree, carets};
ghost use Rattle.trees.specs.Shapes.{shape as shape_of};
ghost use Rattle.pictures.specs.Spans.{drawn};
ghost use Rattle.pictures.specs.Characters.{stroke_of, cell_of, row_of, rows_of, kinds_line, foot_characters};
ghost use Rattle.pictures.specs.Characters.{tree_characters};
ghost use Rattle.pictures.specs.inside.Tables.{span_in, table_spans, table_kinds, table_characters, Cell};

use crate::spans::{CaretSpan, Spans};
use crate::{numbers, text};

impl CaretSpan {
    // What the caret shows in column c of row h.
    fn stroke(self, h: usize, c: usize) -> u8
        requires { (h ≤ drawn) × (c ≤ 2 * drawn) }
        ensures { result ≡ stroke_of (span_in self) h c }
    {
        if (self.width as usize) < h {
            b' '
        } else if c + 1 == 2 * self.first as usize + h {
            b'/'
        } else if c + h == 2 * self.last() {
            b'\\'
        } else {
            b' '
        }
    }
}

impl Spans {
    // What the carets show in column c of row h.
    fn cell(&self, h: usize, c: usize) -> u8
        requires { Cell self.now.carets h c }
        ensures { result ≡ cell_of (table_spans self.now.table self.now.carets) h c }
    {
        for span in &self.table[..self.carets] {
            let x = span.stroke(h, c);
            if x != b' ' {
                return x;
            }
        }
        b' '
    }

    // Row h.
    fn put_row(&self, h: usize, out: &mut [u8], at: usize) -> usize
        requires { h ≤ self.now.carets }
        ensures { Appended (row_of (table_spans self.now.table self.now.carets) self.now.carets h) out.old at
            out.new result }
    {
        let mut end = at;
        for c in 0..2 * self.carets + 1 - h {
            end = appending::append_byte(self.cell(h, c), out, end);
        }
        appending::append(b"\n", out, end)
    }

    // The rows from the top, and the numbers of the leaves below them.
    fn put_rows(&self, out: &mut [u8], at: usize) -> usize
        ensures { Appended
            (rows_of (table_spans self.now.table self.now.carets) self.now.carets self.now.carets)
            out.old at out.new result }
    {
        let mut end = at;
        for h in (0..self.carets).rev() {
            end = self.put_row(h + 1, out, end);
        }
        numbers::put_numbers(self.carets, out, end)
    }

    // The kinds of the carets.
    fn put_kinds(&self, out: &mut [u8], at: usize) -> usize
        ensures { Appended (kinds_line (table_kinds self.now.table self.now.carets 0)) out.old at
            out.new result }
    {
        if self.carets == 0 {
            return appending::append(b"\n", out, at);
        }
        let mut end = self.put_kind(0, out, at);
        for k in 1..self.carets {
            end = appending::append_byte(b' ', out, end);
            end = self.put_kind(k, out, end);
        }
        appending::append(b"\n", out, end)
    }

    // The carets with their kinds, below a head.
    fn put_characters(&self, head: &[u8], out: &mut [u8], at: usize) -> usize
        ensures { Appended (table_characters self.now.table self.now.carets head.now) out.old at
            out.new result }
    {
        let e1 = appending::append(head, out, at);
        let e2 = self.put_rows(out, e1);
        self.put_kinds(out, e2)
    }
}

// A tree with n carets below its head.
pub fn put_tree(shape: &[u8], n: usize, head: &[u8], out: &mut [u8], at: usize) -> usize
    requires { (length shape.now ≤ 2 * drawn + 1) × (n ≤ drawn) }
    ensures { (t : Tree) → shape.now ≡ shape_of t → carets t ≡ n
        → Appended (tree_characters t head.now) out.old at out.new result }
{
    Spans::of(shape, n).put_characters(head, out, at)
}

// The numbers of the pair.
pub fn put_foot(n: usize, length: usize, out: &mut [u8], at: usize) -> usize
    ensures { Appended (foot_characters n length) out.old at out.new result }
{
    text::fill(b"\nN = ~, length = ~\n", &[n, length], out, at)
}
