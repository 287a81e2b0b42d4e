// Salvages a torn trace of any size: reads it from a file or from standard input, writes the frames that can be kept to standard output, and tells each span
// cut out on standard error.
#![tactic(auto)]

mod report;
mod sweep;

use std::env::FillError;
use std::fs::File;
use std::io::{Error, ErrorKind, Write};
use std::rt::{Env, Files};
use trace_io::lines::{ERRORS, OUTPUT};

fn help() {
    io::write_all(
        OUTPUT,
        b"salvaged [FILE]\nSalvages a torn trace, from FILE or from standard input. The good frames are written to standard output.\nEach span that is cut out is a line on standard error: where it starts, how many octets it has, and why no frame begins there.\nExample: salvaged torn.trace > good.trace 2> cuts\n",
    );
}

// What cannot be done, in one line.
fn refuse(what: &[u8], word: &[u8]) {
    io::write_all(ERRORS, what);
    io::write_all(ERRORS, word);
    io::write_all(ERRORS, b"; salvaged --help tells how\n");
}

// Whether a word is an option and no file.
fn is_option(word: &[u8]) -> bool {
    if word.len() == 0 {
        return false;
    }
    word[0] == b'-'
}

// Opens the file of this name.
fn open<R: Files>(rt: &R, name: &[u8]) -> Result<R::File, Error> {
    match str::from_utf8(name) {
        Ok(path) => File::open(rt, path),
        Err(_) => Err(Error::new(ErrorKind::InvalidFilename, "the name is not UTF-8")),
    }
}

// Salvages the file of this name.
fn salvage_file<R: Files, W: Write>(rt: &R, name: &[u8], output: &mut W) {
    match open(rt, name) {
        Ok(file) => {
            let mut input = file;
            sweep::salvage(&mut input, output);
        }
        Err(why) => report::tell_error(name, &why),
    }
}

// Does what the one argument asks.
fn obey<R: Files, W: Write>(rt: &R, word: &[u8], output: &mut W) {
    if check::same(word, b"--help") {
        help();
        return;
    }
    if is_option(word) {
        refuse(b"unknown option ", word);
        return;
    }
    salvage_file(rt, word, output);
}

// Whether there is an argument of this number.
fn is_given<R: Env>(rt: &R, i: usize) -> bool {
    let mut word = io::buffer();
    match rt.arg(i, &mut word) {
        Err(FillError::NotPresent) => false,
        _ => true,
    }
}

fn main(rt: HostRuntime) {
    let mut output = rt.stdout();
    if !is_given(&rt, 1) {
        let mut input = rt.stdin();
        sweep::salvage(&mut input, &mut output);
        return;
    }
    if is_given(&rt, 2) {
        refuse(b"more than one argument", b"");
        return;
    }
    let mut word = io::buffer();
    match rt.arg(1, &mut word) {
        Ok(n) => obey(&rt, &word[..n], &mut output),
        Err(_) => report::tell_failure(b"the argument", "File name too long"),
    }
}
