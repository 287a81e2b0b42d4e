// What is told on standard error, line by line.
use std::io::{Cursor, Error, Write};
use trace_frames::fault::Fault;
use trace_io::lines::{ERRORS, LARGE, Lines};

// No line is longer. Each is written in one piece.
const LINE: usize = 128;

// Why no frame begins.
fn words(fault: Fault) -> &'static [u8] {
    match fault {
        Fault::Length => b"the length is below 3",
        Fault::Version => b"the version is not 1",
        Fault::Kind => b"the kind is above 2",
        Fault::Octets => b"an open or a loss with octets",
        Fault::CutOff => b"cut off",
    }
}

// The line of a span that is cut out.
pub fn tell_cut(lines: &mut Lines<LARGE>, start: u64, size: u64, fault: Option<Fault>) {
    lines.make_room(LINE);
    lines.say_number(start);
    lines.say(b" ");
    lines.say_number(size);
    lines.say(b" ");
    if let Some(why) = fault {
        lines.say(words(why));
    }
    lines.say(b"\n");
}

// The last line: what is kept, and what is cut.
pub fn tell_all(lines: &mut Lines<LARGE>, kept: u64, cut: u64, spans: u64) {
    lines.make_room(LINE);
    lines.say(b"octets kept: ");
    lines.say_number(kept);
    if spans == 0 {
        lines.say(b", nothing cut\n");
        return;
    }
    lines.say(b", octets cut: ");
    lines.say_number(cut);
    lines.say(b", spans cut: ");
    lines.say_number(spans);
    lines.say(b"\n");
}

// What failed, and why, in one line.
pub fn tell_failure(what: &[u8], why: &str) {
    io::write_all(ERRORS, what);
    io::write_all(ERRORS, b": ");
    io::write_all(ERRORS, why.as_bytes());
    io::write_all(ERRORS, b"\n");
}

// The words of an error, without the number that the system gives it.
fn without_number(words: &str) -> &str {
    match words.split_once(" (os error ") {
        Some((why, _)) => why,
        None => words,
    }
}

// What failed, and why, as the system says it.
pub fn tell_error(what: &[u8], why: &Error) {
    let mut words = [0u8; 256];
    let n = {
        let mut room = Cursor::new(&mut words[..]);
        let _ = write!(room, "{why}");
        room.position()
    };
    if n <= 256 {
        match str::from_utf8(&words[..n as usize]) {
            Ok(all) => tell_failure(what, without_number(all)),
            Err(_) => tell_failure(what, ""),
        }
    }
}
