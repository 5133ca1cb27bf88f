// Tagged fields: one read at a place of bytes, one written at the front of a buffer (01, 'The record').
#![tactic(auto)]

ghost use Rattle.std.specs.Prelude.{◌≡◌};
ghost use Rattle.refusals.specs.Placing.{Placed};
ghost use Rattle.fields.specs.inside.Reading.{field_at};
ghost use Rattle.fields.specs.inside.Writing.{field_in};

use refusals::Refusal;

pub mod integers;

// The bytes of a field in front of its body: the tag, and two for the length.
pub const HEAD_SIZE: usize = 3;

// A place in bytes, at which a field is read.
#[derive(Clone, Copy)]
pub struct FieldReader<'a> {
    pub bytes: &'a [u8],
    pub at: usize,
}

impl<'a> FieldReader<'a> {
    // The field with a tag at the place, by the length of its body: all of it stands in the bytes.
    fn field(self, tag: u8) -> Option<usize>
        ensures { result ≡ field_at self.entry.bytes.now self.entry.at tag }
    {
        let [first, high, low, rest @ ..] = self.bytes.get(self.at..)? else {
            return None;
        };
        let length = u16::from_be_bytes([*high, *low]) as usize;
        if *first != tag || rest.len() < length {
            return None;
        }
        Some(length)
    }
}

// The field with a tag at a place of bytes: the length of its body, or none.
pub fn read_field(bytes: &[u8], at: usize, tag: u8) -> Option<usize>
    ensures { result ≡ field_at bytes.now at tag }
{
    FieldReader { bytes, at }.field(tag)
}

// The field of a body, at the front of a buffer; the part behind it can be lent on. Refusal 7 where the buffer is
// shorter than the field, and for a body of more bytes than a length can say, which no buffer holds.
pub fn put_field(tag: u8, body: &[u8], out: &mut [u8]) -> Result<usize, Refusal>
    ensures { Placed (field_in tag body.now out.old) out.old
        out.new result }
{
    let Ok(length) = u16::try_from(body.len()) else {
        return Err(Refusal::ShortBuffer);
    };
    let end = HEAD_SIZE + body.len();
    if out.len() < end {
        return Err(Refusal::ShortBuffer);
    }
    out[0] = tag;
    out[1..HEAD_SIZE].copy_from_slice(&length.to_be_bytes());
    out[HEAD_SIZE..end].copy_from_slice(body);
    Ok(end)
}
