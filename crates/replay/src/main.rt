// Replays scripts of device events, and writes the trace of the answers: from standard input, or from
// the files that the arguments name, each from power-up on, where - is standard input.
#![tactic(auto)]

mod event;
mod print;
mod reading;

use crate::reading::{PIECE, Reading};
use std::env::{Env, FillError};
use std::fs::File;
use std::{io, str};

// The longest name of a script.
const SCRIPT_NAME: usize = 4095;

// The file with this name. A name that is no text names none.
fn named(rt: &HostRuntime, name: &[u8]) -> io::Result<File> {
    let Ok(path) = str::from_utf8(name) else {
        return Err(io::Error::from(io::ErrorKind::InvalidFilename));
    };
    File::open(rt, path)
}

// Writes which file could not be opened, and why.
fn fail(rt: &HostRuntime, name: &[u8], e: io::Error) {
    let to = rt.stderr();
    let _ = to.write_all(name);
    match format!(in rt.alloc(); "{e}") {
        Ok(text) => {
            let what = without_number(text.as_str());
            let _ = print!(to; ": {what}\n");
        }
        Err(_) => {
            let _ = print!(to; ": {e}\n");
        }
    }
}

// What the system says of an error, without the number that std puts after it.
fn without_number(text: &str) -> &str {
    text.split_once(" (os error ")
        .map_or(text, |(what, _)| what)
}

// How many arguments there are, with the program's own name.
fn arg_count(rt: &impl Env) -> usize {
    for i in 0..usize::MAX {
        if let Err(FillError::NotPresent) = rt.arg(i, &mut []) {
            return i;
        }
    }
    usize::MAX
}

// Replays the script that argument i names, if it can be opened.
fn argument(rt: &HostRuntime, i: usize, reading: &mut Reading, piece: &mut [u8; PIECE]) {
    let mut name = [0u8; SCRIPT_NAME];
    let n = rt.arg(i, &mut name).unwrap_or(0);
    let name = buffer::part(&name, 0, n);
    if name == b"-".as_slice() {
        reading.script(rt, &mut rt.stdin(), piece);
        return;
    }
    match named(rt, name) {
        Ok(mut file) => reading.script(rt, &mut file, piece),
        Err(e) => fail(rt, name, e),
    }
}

fn main(rt: HostRuntime) {
    let mut reading = Reading::new();
    let mut piece = [0u8; PIECE];
    let n = arg_count(&rt);
    if n < 2 {
        reading.script(&rt, &mut rt.stdin(), &mut piece);
    }
    for i in 1..n {
        argument(&rt, i, &mut reading, &mut piece);
    }
}
