// A record and the record with its two sides exchanged: which of the two comes first in byte order.
ghost use Rattle.std.specs.Prelude.{◌≡◌, ◌≤◌, length};
ghost use Rattle.std.proofs.lemmas.List.Edits.{sets};
ghost use Rattle.lists.specs.SameBytes.{same_bytes};
ghost use Rattle.records.specs.Exchange.{exchanged, is_above};

use crate::frame::Frame;
use crate::{A_TAG, B_TAG};

impl<'a> Frame<'a> {
    // Whether the exchange comes before the record: the lengths of the bodies decide first, then the bodies.
    pub fn is_above(self) -> bool
        ensures { result ≡ is_above self.entry.bytes.now }
    {
        if self.a_length != self.b_length {
            return self.a_length < self.b_length;
        }
        self.a_body() < self.b_body()
    }

    // Whether a record is another with its sides exchanged.
    pub fn is_exchange_of(self, other: Frame<'a>) -> bool
        ensures { result ≡ same_bytes self.entry.bytes.now (exchanged other.entry.bytes.now) }
    {
        self.b_body() == other.a_body() && self.a_body() == other.b_body()
    }

    // The exchange, at the front of a buffer.
    pub fn put_exchange(self, out: &mut [u8])
        requires { length self.bytes.now ≤ length out.old }
        ensures { out.new ≡ sets out.old 0 (exchanged self.entry.bytes.now) }
    {
        let behind = fields::put_field(B_TAG, self.a_body(), out).unwrap();
        fields::put_field(A_TAG, self.b_body(), &mut out[behind..]).unwrap();
    }
}
