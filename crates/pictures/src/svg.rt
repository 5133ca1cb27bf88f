// A tree pair as an SVG text. The leaves stand on the line y = 0, and the trees above it.
ghost use Rattle.std.specs.Prelude.{◌≡◌, suc, ◌+◌, ◌<◌, ◌≤◌, ◌*◌, length};
ghost use Rattle.appending.specs.inside.Appending.{Appended};
ghost use Rattle.trees.specs.Trees.{Tree, carets};
ghost use Rattle.trees.specs.Shapes.{shape as shape_of};
ghost use Rattle.pictures.specs.Spans.{drawn};
ghost use Rattle.pictures.specs.Svg.{head_svg, caret_svg, leaf_svg, leaves_svg, leaf_group, name_svg};
ghost use Rattle.pictures.specs.Svg.{tree_svg, foot_svg};
ghost use Rattle.pictures.specs.inside.Tables.{span_at, table_kind, carets_from, table_group, table_svg};

use crate::spans::Spans;
use crate::text;

// The start of the picture of a pair with n carets.
pub fn put_head(n: usize, out: &mut [u8], at: usize) -> usize
    requires { n ≤ drawn }
    ensures { Appended (head_svg n) out.old at out.new result }
{
    let wide = 64 * n + 128;
    let high = 16 * n + 120;
    let top = 16 * n + 24;
    let e1 = appending::append(
        b"<svg xmlns='http://www.w3.org/2000/svg' font-family='sans-serif' text-anchor='middle'",
        out,
        at,
    );
    text::fill(
        b" width='~' height='~' viewBox='-32 -~ ~ ~'>\n<rect x='-32' y='-~' width='100%' height='100%' fill='#fff'/>\n",
        &[wide, high, top, wide, high, top],
        out,
        e1,
    )
}

impl Spans {
    // Caret k, and its kind.
    fn put_caret(&self, k: usize, out: &mut [u8], at: usize) -> usize
        requires { k < self.now.carets }
        ensures { Appended (caret_svg (span_at self.now.table k) (table_kind self.now.table self.now.carets k))
            out.old at out.new result }
    {
        let first = self.table[k].first as usize;
        let width = self.table[k].width as usize;
        let last = first + width;
        let x = 16 * (first + last);
        let y = 16 * width;
        let e1 = text::fill(
            b"<path fill='none' stroke='#000' d='M~ 0 ~ -~ ~ 0'/><text x='~' y='-~' dy='14'>",
            &[32 * first, x, y, 32 * last, x, y],
            out,
            at,
        );
        let e2 = self.put_kind(k, out, e1);
        appending::append(b"</text>\n", out, e2)
    }

    // All carets, and the end of their group.
    fn put_carets(&self, out: &mut [u8], at: usize) -> usize
        ensures { Appended (carets_from self.now.table self.now.carets 0) out.old at out.new result }
    {
        let mut end = at;
        for k in 0..self.carets {
            end = self.put_caret(k, out, end);
        }
        appending::append(b"</g>\n", out, end)
    }

    // The carets, moved to the right by x.
    fn put_group(&self, x: usize, out: &mut [u8], at: usize) -> usize
        ensures { Appended (table_group self.now.table x self.now.carets) out.old at out.new result }
    {
        let e1 = text::fill(
            b"<g font-size='8' transform='translate(~)'>\n",
            &[x],
            out,
            at,
        );
        self.put_carets(out, e1)
    }

    // The carets, their leaves and a name, moved to the right by x.
    fn put_svg(&self, x: usize, name: &[u8], out: &mut [u8], at: usize) -> usize
        requires { x < 65536 }
        ensures { Appended (table_svg self.now.table x self.now.carets name.now) out.old at
            out.new result }
    {
        let e1 = self.put_group(x, out, at);
        let e2 = put_leaf_group(self.carets, x, out, e1);
        put_name(x + 16 * self.carets, name, out, e2)
    }
}

// The number of a leaf.
fn put_leaf(k: usize, out: &mut [u8], at: usize) -> usize
    requires { k ≤ drawn }
    ensures { Appended (leaf_svg k) out.old at out.new result }
{
    text::fill(b"<text x='~'>~</text>\n", &[32 * k, k], out, at)
}

// The numbers of all leaves, and the end of their group.
fn put_leaves(n: usize, out: &mut [u8], at: usize) -> usize
    requires { n ≤ drawn }
    ensures { Appended (leaves_svg 0 (suc n)) out.old at out.new result }
{
    let mut end = at;
    for k in 0..n + 1 {
        end = put_leaf(k, out, end);
    }
    appending::append(b"</g>\n", out, end)
}

// A name at x, below the leaves.
fn put_name(x: usize, name: &[u8], out: &mut [u8], at: usize) -> usize
    ensures { Appended (name_svg x name.now) out.old at out.new result }
{
    let e1 = text::fill(b"<text font-size='16' y='44' x='~'>", &[x], out, at);
    let e2 = appending::append(name, out, e1);
    appending::append(b"</text>\n", out, e2)
}

// The numbers of the leaves, below these and moved to the right by x.
fn put_leaf_group(n: usize, x: usize, out: &mut [u8], at: usize) -> usize
    requires { n ≤ drawn }
    ensures { Appended (leaf_group x n) out.old at out.new result }
{
    let e1 = text::fill(
        b"<g font-size='10' fill='#666' transform='translate(~ 14)'>\n",
        &[x],
        out,
        at,
    );
    put_leaves(n, out, e1)
}

// A tree with n carets and its name, moved to the right by x.
pub fn put_tree(shape: &[u8], n: usize, x: usize, name: &[u8], out: &mut [u8], at: usize) -> usize
    requires { (length shape.now ≤ 2 * drawn + 1) × (n ≤ drawn) × (x < 65536) }
    ensures { (t : Tree) → shape.now ≡ shape_of t → carets t ≡ n
        → Appended (tree_svg x t name.now) out.old at out.new result }
{
    Spans::of(shape, n).put_svg(x, name, out, at)
}

// The numbers of the pair, and the end of the picture.
pub fn put_foot(n: usize, length: usize, out: &mut [u8], at: usize) -> usize
    requires { n ≤ drawn }
    ensures { Appended (foot_svg n length) out.old at out.new result }
{
    text::fill(
        b"<text font-size='14' y='76' x='~'>N = ~, length = ~</text>\n</svg>\n",
        &[32 * n + 32, n, length],
        out,
        at,
    )
}
