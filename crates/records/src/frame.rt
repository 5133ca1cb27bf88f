// The two fields of a record, and their bodies.
ghost use Rattle.std.specs.Prelude.{◌≡◌, false, MatchOption};
ghost use Rattle.fields.specs.Fields.{Bytes as AreBytes};
ghost use Rattle.records.specs.Exchange.{b_body, a_body};
ghost use Rattle.records.specs.Reading.{a_start, a_powers, b_powers, frames};
ghost use Rattle.records.specs.inside.Steps.{FramedBy};
ghost use Rattle.records.specs.inside.Walking.{left_at, Inside};

use crate::walk::Place;
use crate::{A_TAG, B_TAG, BASE_SIZE};
use fields::HEAD_SIZE;

// Bytes that two fields frame, with the lengths of the two bodies.
#[derive(Clone, Copy)]
pub struct Frame<'a> {
    pub bytes: &'a [u8],
    pub b_length: usize,
    pub a_length: usize,
    ghost are_bytes: { AreBytes bytes.now },
    ghost framed: { FramedBy bytes.now b_length a_length },
}

impl<'a> Frame<'a> {
    // The two fields: present, in order, ending where the bytes end, with whole entries.
    pub fn read(bytes: &'a [u8]) -> Option<Frame<'a>>
        ensures { MatchOption result (frames bytes.now ≡ false) (λ f. f.bytes.now ≡ bytes.now) }
    {
        let b_length = fields::read_field(bytes, 0, B_TAG)?;
        let a_length = fields::read_field(bytes, HEAD_SIZE + b_length, A_TAG)?;
        if bytes.len() != BASE_SIZE + b_length + a_length
            || b_length % 4 != 0
            || a_length % 4 != 0
        {
            return None;
        }
        Some(Frame {
            bytes,
            b_length,
            a_length,
        })
    }

    // The body of the b side.
    pub fn b_body(self) -> &'a [u8]
        ensures { result.now ≡ b_body self.entry.bytes.now }
    {
        &self.bytes[HEAD_SIZE..HEAD_SIZE + self.b_length]
    }

    // The body of the a side.
    pub fn a_body(self) -> &'a [u8]
        ensures { result.now ≡ a_body self.entry.bytes.now }
    {
        &self.bytes[BASE_SIZE + self.b_length..]
    }

    // Where the entries of the b side stand.
    pub fn b_place(self) -> Place
        ensures at { result.at ≡ 3 }
        ensures inside { Inside self.entry.bytes.now result }
        ensures powers { left_at self.entry.bytes.now result ≡ b_powers self.entry.bytes.now }
    {
        Place {
            at: HEAD_SIZE,
            left: self.b_length / 4,
        }
    }

    // Where those of the a side stand.
    pub fn a_place(self) -> Place
        ensures at { result.at ≡ a_start self.entry.bytes.now }
        ensures inside { Inside self.entry.bytes.now result }
        ensures powers { left_at self.entry.bytes.now result ≡ a_powers self.entry.bytes.now }
    {
        Place {
            at: BASE_SIZE + self.b_length,
            left: self.a_length / 4,
        }
    }
}
