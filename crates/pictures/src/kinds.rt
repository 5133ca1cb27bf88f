// The kinds of carets, found from their spans.
ghost use Rattle.std.specs.Prelude.{◌≡◌, ◌+◌, ◌<◌, ◌≤◌};
ghost use Rattle.appending.specs.inside.Appending.{Appended};
ghost use Rattle.lengths.specs.Kinds.{next_inside, some_inside_value};
ghost use Rattle.lengths.specs.inside.Steps.{class_byte, kind_named};
ghost use Rattle.pictures.specs.Spans.{drawn};
ghost use Rattle.pictures.specs.Texts.{kind_name};
ghost use Rattle.pictures.specs.inside.Tables.{span_at, class_by, classes_at, table_kind};

use crate::spans::Spans;
use lengths::kinds;
use lengths::kinds::CaretKind;

// The two letters of a kind.
fn name(kind: CaretKind) -> [u8; 2]
    ensures { result ≡ kind_name (kind_named kind) }
{
    match kind {
        CaretKind::R0 => *b"R0",
        CaretKind::RN => *b"RN",
        CaretKind::RI => *b"RI",
        CaretKind::LL => *b"LL",
        CaretKind::I0 => *b"I0",
        CaretKind::IR => *b"IR",
    }
}

impl Spans {
    // The class of caret k, a byte as `lengths` has it.
    fn class(&self, k: usize) -> u8
        requires { k < drawn }
        ensures { result ≡ class_byte (class_by self.now.carets k (span_at self.now.table k)) }
    {
        let span = self.table[k];
        if span.first == 0 {
            kinds::LEFT
        } else if span.last() == self.carets {
            kinds::RIGHT
        } else if span.last() == k + 1 {
            kinds::INSIDE_LEAF
        } else {
            kinds::INSIDE_CARET
        }
    }

    // Whether caret k is there, and interior.
    fn is_inside(&self, k: usize) -> bool
        ensures { result ≡ next_inside (classes_at self.now.table self.now.carets k) }
    {
        k < self.carets && kinds::INSIDE_LEAF <= self.class(k)
    }

    // Whether some caret from k on is interior.
    fn some_inside(&self, k: usize) -> bool
        ensures { result ≡ some_inside_value (classes_at self.now.table self.now.carets k) }
    {
        (k..self.carets).any(|j| self.is_inside(j))
    }

    // The name of the kind of caret k.
    pub fn put_kind(&self, k: usize, out: &mut [u8], at: usize) -> usize
        requires { k < self.now.carets }
        ensures { Appended (kind_name (table_kind self.now.table self.now.carets k)) out.old at
            out.new result }
    {
        if k == 0 {
            return appending::append(b"L0", out, at);
        }
        let kind = kinds::kind(
            self.class(k),
            self.is_inside(k + 1),
            self.some_inside(k + 1),
        );
        appending::append(&name(kind), out, at)
    }
}
