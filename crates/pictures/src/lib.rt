// Pictures of tree pairs: as an SVG text, and in characters.
#![tactic(auto)]

ghost use Rattle.std.specs.Prelude.{◌≡◌, ◌≤◌};
ghost use Rattle.appending.specs.inside.Appending.{Appended};
ghost use Rattle.trees.specs.Trees.{Tree, carets};
ghost use Rattle.trees.specs.Shapes.{shape};
ghost use Rattle.pictures.specs.Spans.{drawn};
ghost use Rattle.pictures.specs.Svg.{svg_of};
ghost use Rattle.pictures.specs.Characters.{characters_of};

mod characters;
mod kinds;
mod numbers;
mod spans;
mod svg;
mod text;

// The most carets that are drawn.
pub const DRAWN: usize = 300;

// The bytes of the longest shape that is drawn.
const MAX_SHAPE: usize = 2 * DRAWN + 1;

// The picture of a pair, by its shapes and its length, as an SVG text: T- at the left, T+ at the right.
pub fn put_svg(minus: &[u8], plus: &[u8], length: usize, out: &mut [u8], at: usize) -> usize
    ensures { (t s : Tree) → minus.now ≡ shape t → plus.now ≡ shape s
        → carets t ≡ carets s → carets t ≤ drawn
        → Appended (svg_of t s length) out.old at out.new result }
{
    if MAX_SHAPE < minus.len() || MAX_SHAPE < plus.len() {
        return appending::BEYOND;
    }
    let n = minus.len() / 2;
    let behind_head = svg::put_head(n, out, at);
    let behind_minus = svg::put_tree(minus, n, 0, b"T&#8722;", out, behind_head);
    let behind_plus = svg::put_tree(plus, n, 32 * n + 64, b"T+", out, behind_minus);
    svg::put_foot(n, length, out, behind_plus)
}

// The picture of a pair, by its shapes and its length, in characters: T- above T+.
pub fn put_characters(minus: &[u8], plus: &[u8], length: usize, out: &mut [u8], at: usize) -> usize
    ensures { (t s : Tree) → minus.now ≡ shape t → plus.now ≡ shape s
        → carets t ≡ carets s → carets t ≤ drawn
        → Appended (characters_of t s length) out.old at out.new result }
{
    if MAX_SHAPE < minus.len() || MAX_SHAPE < plus.len() {
        return appending::BEYOND;
    }
    let n = minus.len() / 2;
    let behind_minus = characters::put_tree(minus, n, b"T-\n", out, at);
    let behind_plus = characters::put_tree(plus, n, b"\nT+\n", out, behind_minus);
    characters::put_foot(n, length, out, behind_plus)
}
