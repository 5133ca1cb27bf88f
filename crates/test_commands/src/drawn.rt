// Pictures of records.
use crate::record_lines::{RECORD, text};
use cases::counts::print_text;
use cases::parts;
use commands::{ANSWER, Rooms};
use drawings::PICTURE;

// The picture of a record from the line behind its case on, or what is said in place of it.
fn print_record(characters: bool, record: &[u8]) {
    let mut rooms = Rooms::new();
    let mut picture = [0u8; PICTURE];
    let mut out = [0u8; ANSWER];
    let drawn = drawings::draw(characters, record, &mut rooms, &mut picture, &mut out);
    match drawn {
        Ok(n) => {
            print_text(b"\n");
            print_text(parts::front(&picture, n));
        }
        Err(answer) => print_text(text(&out, answer)),
    }
}

// The picture of a record in hexadecimal.
pub fn print(characters: bool, chars: &[u8]) {
    let mut bytes = [0u8; RECORD];
    let amid = hexadecimal::read(chars, &mut bytes, hexadecimal::begin());
    print_record(characters, parts::front(&bytes, amid.held));
}
