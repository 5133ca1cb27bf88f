// The register program: a register of first filings kept in a file. It reads, calls and writes; the crates `registers`
// and `updates` have the rest. What was asked for goes to standard output, what went wrong to standard error.
#![tactic(auto)]

mod answers;
mod command;
mod entering;
mod entries;
mod faults;
mod files;
mod making;
mod parts;
mod showing;
mod text;
mod turns;

use std::env::Env;
use std::fs::File;
use std::io::Read;
use std::rt::Files;

// A command with no argument.
fn show<R: Files<File = File> + Env>(rt: &R, file: &[u8]) {
    let mut word = [0u8; command::WORD];
    match command::word(rt, &mut word) {
        b"list" => showing::list(rt, file),
        b"check" => showing::check(rt, file),
        _ => command::usage(),
    }
}

// A command with one argument, a number.
fn change<R: Files<File = File> + Env, I: Read>(rt: &R, input: &mut I, file: &[u8]) {
    let mut word = [0u8; command::WORD];
    match (command::word(rt, &mut word), command::number(rt)) {
        (b"new", Some(n)) => making::make(rt, file, n as usize),
        (b"enter", Some(n)) => entering::enter(rt, input, file, n),
        _ => command::usage(),
    }
}

// The command on a file.
fn run<R: Files<File = File> + Env, I: Read>(rt: &R, input: &mut I, file: &[u8]) {
    match command::count(rt) {
        3 => show(rt, file),
        4 => change(rt, input, file),
        _ => command::usage(),
    }
}

fn main(rt: HostRuntime) {
    let mut name = [0u8; files::NAME];
    let file = command::text(&rt, 1, &mut name);
    if file.is_empty() {
        command::usage();
    } else {
        let mut input = rt.stdin();
        run(&rt, &mut input, file);
    }
}
