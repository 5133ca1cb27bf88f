// What a file holds, for people: its entries, or how many there are and how much room is left.
use crate::files::ROOM;
use crate::text::{STDERR, STDOUT};
use crate::{entries, faults, files, parts, text};
use registers::{Heading, Overview};
use std::fs::File;
use std::rt::Files;

// An entry: number, holder, record.
fn show_entry(register: &[u8], h: Heading) -> bool {
    text::number(h.number as u64, b" ");
    text::number(h.holder as u64, b" ");
    text::hex(parts::between(register, h.start, h.next));
    io::write_all(STDOUT, b"\n")
}

// The entries of a register, or what is wrong.
fn list_register(register: &[u8]) {
    if registers::check_register(register).is_ok() {
        text::confirm(entries::all(register, |h| show_entry(register, h)));
    } else {
        faults::describe(STDERR, register);
    }
}

// The entries of the register of a file.
pub fn list<R: Files<File = File>>(rt: &R, file: &[u8]) {
    let mut room = [0u8; ROOM];
    let loaded = files::load(files::open_read(rt, file), file, &mut room);
    if let Some(n) = loaded {
        list_register(files::contents(&room, n));
    }
}

// How many entries a register has.
fn count_entries(register: &[u8]) -> u64 {
    let mut count = 0u64;
    entries::all(register, |_| {
        count = count.wrapping_add(1);
        true
    });
    count
}

// Four lines on a register.
fn show_overview(register: &[u8], o: Overview) -> bool {
    text::named(b"entries ", count_entries(register));
    text::named(b"last number ", o.last as u64);
    text::named(b"bytes used ", o.end as u64);
    let free = register.len().wrapping_sub(o.end);
    text::named(b"bytes free ", free as u64)
}

// How full a register is, or what is wrong.
fn check_register(register: &[u8]) {
    match registers::summary(register, 0) {
        Ok(o) => text::confirm(show_overview(register, o)),
        Err(_) => faults::describe(STDOUT, register),
    }
}

// How full the register of a file is.
pub fn check<R: Files<File = File>>(rt: &R, file: &[u8]) {
    let mut room = [0u8; ROOM];
    let loaded = files::load(files::open_read(rt, file), file, &mut room);
    if let Some(n) = loaded {
        check_register(files::contents(&room, n));
    }
}
