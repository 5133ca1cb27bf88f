// The file of a register: read whole, and replaced whole or not at all. A draft, FILE.new, is made first, which no
// other run can make then; it is written, synced and renamed over the file, or removed.
ghost use Rattle.std.specs.Prelude.{◌≤◌, length};

use crate::parts;
use crate::text::{STDERR, fail, tell};
use registers::MOST_BYTES;
use std::fs::{File, OpenOptions};
use std::io::{Error, ErrorKind, Read, Write};
use std::os::fd::AsRawFd;
use std::rt::Files;
use std::{fs, io, str};

// The bytes of the longest name of a file, and of that of a draft.
pub const NAME: usize = 4096;

pub const DRAFT_NAME: usize = NAME + 4;

// The most bytes that are read of a file: one more than a register has.
pub const ROOM: usize = MOST_BYTES + 1;

// The draft of a file, open to be written, and both names.
#[derive(Drop)]
pub struct Draft<'a> {
    opened: File,
    file: &'a [u8],
    name: &'a [u8],
}

// The name of the draft of a file: its own and `.new`.
pub fn draft_name(file: &[u8], name: &mut [u8; DRAFT_NAME]) -> usize {
    let end = printing::put(file, name, 0);
    printing::put(b".new", name, end)
}

// The name of a draft that was put into a buffer.
pub fn name_in(name: &[u8; DRAFT_NAME], n: usize) -> &[u8] {
    parts::front(name, n)
}

// A name as text; no file is opened by other bytes.
fn path(name: &[u8]) -> io::Result<&str> {
    str::from_utf8(name).or(Err(Error::from(ErrorKind::InvalidFilename)))
}

// Opens a file to be read.
pub fn open_read<R: Files<File = File>>(rt: &R, file: &[u8]) -> io::Result<File> {
    File::open(rt, path(file)?)
}

// Opens a file to be read, which may also be written.
pub fn open_update<R: Files<File = File>>(rt: &R, file: &[u8]) -> io::Result<File> {
    OpenOptions::new()
        .read(true)
        .write(true)
        .open(rt, path(file)?)
}

// Makes a file to be written, which has to be new.
fn create<R: Files<File = File>>(rt: &R, file: &[u8]) -> io::Result<File> {
    OpenOptions::new()
        .write(true)
        .create_new(true)
        .open(rt, path(file)?)
}

// Says that there is a draft.
fn tell_taken(file: &[u8]) {
    tell(file);
    tell(
        b".new exists: another run is changing the file, or one was killed. Nothing is altered.\n",
    );
    tell(b"If no other run is under way, remove it and run again.\n");
}

// Removes a file.
fn unlink<R: Files>(rt: &R, file: &[u8]) -> io::Result<()> {
    fs::remove_file(rt, path(file)?)
}

// Removes a draft that this run made; says so where that fails.
fn remove<R: Files>(rt: &R, name: &[u8]) {
    if let Err(e) = unlink(rt, name) {
        fail(name, e);
    }
}

// Says why there is no draft of this run.
fn refuse(e: Error, file: &[u8], name: &[u8]) {
    if e.kind() == ErrorKind::AlreadyExists {
        tell_taken(file);
    } else {
        fail(name, e);
    }
}

// Makes the draft of a file, which has to be new; answers it, or nothing and says why. There is no use for one that has
// the number of a standard stream.
pub fn claim<'a, R: Files<File = File>>(
    rt: &R,
    file: &'a [u8],
    name: &'a [u8],
) -> Option<Draft<'a>> {
    match create(rt, name) {
        Ok(opened) => {
            let is_usable = opened.as_raw_fd() > STDERR;
            let draft = Draft { opened, file, name };
            if is_usable {
                return Some(draft);
            }
            draft.abandon(rt);
            tell(b"register: standard input, output and error have to be open\n");
            None
        }
        Err(e) => {
            refuse(e, file, name);
            None
        }
    }
}

// Writes and syncs a draft.
fn write(opened: &mut File, bytes: &[u8]) -> io::Result<()> {
    opened.write_all(bytes)?;
    opened.sync_all()
}

// Gives a draft the name of its file.
fn give_name<R: Files>(rt: &R, file: &[u8], name: &[u8]) -> io::Result<()> {
    fs::rename(rt, path(name)?, path(file)?)
}

// Gives a draft the name of its file; answers whether that is done.
fn rename<R: Files>(rt: &R, file: &[u8], name: &[u8]) -> bool {
    match give_name(rt, file, name) {
        Ok(()) => true,
        Err(e) => {
            fail(file, e);
            remove(rt, name);
            false
        }
    }
}

impl Draft<'_> {
    // Closes and removes the draft.
    pub fn abandon<R: Files>(self, rt: &R) {
        let Draft { opened, name, .. } = self;
        drop(opened);
        remove(rt, name);
    }

    // Puts bytes in the place of the file by way of the draft: whether that is done. Else the file is as it was.
    pub fn replace<R: Files>(self, rt: &R, bytes: &[u8]) -> bool {
        let Draft {
            mut opened,
            file,
            name,
        } = self;
        let written = write(&mut opened, bytes);
        drop(opened);
        match written {
            Ok(()) => rename(rt, file, name),
            Err(e) => {
                fail(name, e);
                remove(rt, name);
                false
            }
        }
    }
}

// Fills a buffer, or puts the bytes there are up to the end of a file or to a failure: how many. A `while`: a read may
// give fewer bytes than there is room for.
fn read_full(opened: &mut File, room: &mut [u8]) -> usize {
    let mut done = 0;
    while done < room.len() {
        match opened.read(&mut room[done..]) {
            Ok(n) if n > 0 => done += n,
            _ => return done,
        }
    }
    done
}

// Whether a file has come to its end; says so if it cannot be read.
fn is_end(opened: &mut File, file: &[u8]) -> bool {
    let mut next = [0u8; 1];
    match opened.read(&mut next) {
        Ok(n) => n == 0,
        Err(e) => {
            fail(file, e);
            false
        }
    }
}

// Reads a file to its end, or as far as there is room: how many bytes; says so if it cannot be read.
fn read_whole(opened: File, file: &[u8], room: &mut [u8; ROOM]) -> Option<usize> {
    let mut opened = opened;
    let n = read_full(&mut opened, room);
    if n == ROOM || is_end(&mut opened, file) {
        return Some(n);
    }
    None
}

// Reads a file that was opened to its end, or as far as there is room: how many bytes; says so if it cannot be opened
// or read.
pub fn load(opened: io::Result<File>, file: &[u8], room: &mut [u8; ROOM]) -> Option<usize> {
    match opened {
        Ok(opened) => read_whole(opened, file, room),
        Err(e) => {
            fail(file, e);
            None
        }
    }
}

// What was read of a file.
pub fn contents(room: &[u8; ROOM], n: usize) -> &[u8] {
    parts::front(room, n)
}

// Says that something has the name of a file.
fn tell_there(file: &[u8]) {
    tell(file);
    tell(b" exists. Nothing is altered.\n");
}

// Whether nothing has the name of a file; says so if something has, or if that cannot be told.
pub fn is_free<R: Files<File = File>>(rt: &R, file: &[u8]) -> bool {
    match open_read(rt, file) {
        Ok(_) => {
            tell_there(file);
            false
        }
        Err(e) => {
            if e.kind() == ErrorKind::NotFound {
                return true;
            }
            fail(file, e);
            false
        }
    }
}
