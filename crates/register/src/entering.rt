// The words of an input, one a line, entered into the register of a file: read whole, changed in memory, and
// replaced once at the end. The answers are held until then, as far as their buffer goes.
use crate::answers::OUTPUT;
use crate::files::{DRAFT_NAME, Draft, ROOM};
use crate::text::{STDERR, STDOUT};
use crate::turns::{Failed, Target, Turn};
use crate::{command, faults, files, parts, text, turns};
use std::fs::File;
use std::io::Read;
use std::rt::Files;

// The end of a run: the file replaced if an entry is new, the draft removed if none is, or if something went wrong.
fn settle<R: Files>(
    rt: &R,
    draft: Draft<'_>,
    register: &[u8],
    taken: Result<Turn, Failed>,
) -> bool {
    match taken {
        Ok(t) if t.fresh => draft.replace(rt, register),
        _ => {
            draft.abandon(rt);
            taken.is_ok()
        }
    }
}

// The words, entered into a register in memory; then the file, then the answers that are held, or that nothing is
// altered.
fn enter_words<R: Files, I: Read>(
    rt: &R,
    input: &mut I,
    draft: Draft<'_>,
    target: Target,
    room: &mut [u8; ROOM],
) {
    let mut out = [0u8; OUTPUT];
    let taken = turns::take_all(input, target, room, &mut out);
    let done = settle(rt, draft, files::contents(room, target.size), taken);
    match taken {
        Ok(t) if done => text::confirm(io::write_all(STDOUT, parts::front(&out, t.used))),
        _ => text::tell(b"The register is as it was.\n"),
    }
}

// The same, if there is a register.
fn enter_sound<R: Files, I: Read>(
    rt: &R,
    input: &mut I,
    draft: Draft<'_>,
    target: Target,
    room: &mut [u8; ROOM],
) {
    if registers::check_register(files::contents(room, target.size)).is_ok() {
        enter_words(rt, input, draft, target, room);
    } else {
        draft.abandon(rt);
        faults::describe(STDERR, files::contents(room, target.size));
    }
}

// The words of an input, entered by way of the draft of a file, which has to be writable.
fn enter_by<R: Files<File = File>, I: Read>(
    rt: &R,
    input: &mut I,
    file: &[u8],
    name: &[u8],
    holder: u16,
) {
    let Some(draft) = files::claim(rt, file, name) else {
        return;
    };
    let mut room = [0u8; ROOM];
    let Some(size) = files::load(files::open_update(rt, file), file, &mut room) else {
        draft.abandon(rt);
        return;
    };
    let target = Target { holder, size };
    enter_sound(rt, input, draft, target, &mut room);
}

// The words of an input, entered for a holder.
pub fn enter<R: Files<File = File>, I: Read>(rt: &R, input: &mut I, file: &[u8], holder: u64) {
    if holder > 65535 {
        command::usage();
        return;
    }
    let mut name = [0u8; DRAFT_NAME];
    let k = files::draft_name(file, &mut name);
    enter_by(rt, input, file, files::name_in(&name, k), holder as u16);
}
