// Of a record and the record with its two sides exchanged, the one that comes first in byte order: what a list keeps
// for an element and for its inverse. A record is two fields, each a tag, a length in two bytes and a body.
use cases::parts;

// The bytes before a body.
const HEAD: usize = 3;

// The body of the field at the front.
fn body(s: &[u8]) -> &[u8] {
    match s {
        [_, high, low, behind @ ..] => parts::front(
            behind,
            u16::from_be_bytes([*high, *low]) as usize,
        ),
        _ => &[],
    }
}

// A field from a place on. The place behind it.
fn put_field(out: &mut [u8], at: usize, tag: u8, body: &[u8]) -> usize {
    let [high, low] = ((body.len() % 65536) as u16).to_be_bytes();
    let behind = parts::put_all(out, at, &[tag, high, low]);
    parts::put_all(out, behind, body)
}

// The record with its two sides exchanged.
fn put_exchange(record: &[u8], out: &mut [u8]) {
    let b = body(record);
    let a = body(parts::behind(record, HEAD.wrapping_add(b.len())));
    let behind = put_field(out, 0, 1, a);
    put_field(out, behind, 2, b);
}

// The one of a record and its exchange that comes first. How many bytes it has.
pub fn put_first(record: &[u8], out: &mut [u8]) -> usize {
    put_exchange(record, out);
    if record < parts::front(out, record.len()) {
        parts::put_all(out, 0, record);
    }
    record.len()
}
