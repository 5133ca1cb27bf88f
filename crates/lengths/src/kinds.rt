// The classes, the kinds and the labels of carets: one reading of a tree, by classes, gives both of the others.
ghost use Rattle.std.specs.Prelude.{◌≡◌};
ghost use Rattle.lengths.specs.Kinds.{kind_of};
ghost use Rattle.lengths.specs.Labels.{label_of};
ghost use Rattle.lengths.specs.inside.Steps.{kind_named, label_named, class_of};

// The classes of carets: on the left side, on the right side, interior with a leaf as right child, interior with a
// caret as right child. They stay bytes: they are written over those of the shape that is read (fixed memory).
pub const LEFT: u8 = 0;

pub const RIGHT: u8 = 1;

pub const INSIDE_LEAF: u8 = 2;

pub const INSIDE_CARET: u8 = 3;

// The kinds of carets behind caret 0, in the order of Fordham's table.
#[derive(Clone, Copy, PartialEq, Eq)]
pub enum CaretKind {
    R0,
    RN,
    RI,
    LL,
    I0,
    IR,
}

// The labels of carets behind caret 0, in the order of Table 1.
#[derive(Clone, Copy, PartialEq, Eq)]
pub enum CaretLabel {
    I,
    N,
    L,
    R,
    X,
}

// The kind of a caret behind caret 0: by its class, whether the next caret is interior, and whether some later one is.
pub fn kind(class: u8, next: bool, later: bool) -> CaretKind
    ensures { kind_named result ≡ kind_of (class_of class) next later }
{
    match class {
        LEFT => CaretKind::LL,
        RIGHT if next => CaretKind::RI,
        RIGHT if later => CaretKind::RN,
        RIGHT => CaretKind::R0,
        INSIDE_LEAF => CaretKind::I0,
        _ => CaretKind::IR,
    }
}

// The label of a caret behind caret 0, by its kind. No `From`: `kind`, which takes three values, stands beside it.
pub fn label(kind: CaretKind) -> CaretLabel
    ensures { label_named result ≡ label_of (kind_named kind) }
{
    match kind {
        CaretKind::R0 | CaretKind::RN => CaretLabel::R,
        CaretKind::RI => CaretLabel::X,
        CaretKind::LL => CaretLabel::L,
        CaretKind::I0 => CaretLabel::I,
        CaretKind::IR => CaretLabel::N,
    }
}
