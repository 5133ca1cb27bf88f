// A fresh register in a new file.
use crate::files::{DRAFT_NAME, ROOM};
use crate::text::STDOUT;
use crate::{command, files, parts, text};
use registers::{FIRST_SIZE, LAST_TAG, MOST_BYTES, NUMBER_SIZE};
use std::fs::File;
use std::rt::Files;

// Makes a file with a fresh register of n bytes, by way of its draft, where there is none.
fn make_by<R: Files<File = File>>(rt: &R, file: &[u8], name: &[u8], n: usize) {
    let Some(draft) = files::claim(rt, file, name) else {
        return;
    };
    if !files::is_free(rt, file) {
        draft.abandon(rt);
        return;
    }
    let mut fresh = [0u8; ROOM];
    fresh[0] = LAST_TAG;
    fresh[2] = NUMBER_SIZE as u8;
    if draft.replace(rt, parts::front(&fresh, n)) {
        text::confirm(io::write_all(STDOUT, b"made\n"));
    }
}

// Makes a file with a fresh register of n bytes, where there is none.
pub fn make<R: Files<File = File>>(rt: &R, file: &[u8], n: usize) {
    if n < FIRST_SIZE || n > MOST_BYTES {
        command::usage();
        return;
    }
    let mut name = [0u8; DRAFT_NAME];
    let k = files::draft_name(file, &mut name);
    make_by(rt, file, files::name_in(&name, k), n);
}
