// Runs the codec on the vectors of a second PER program: frames from standard input, and for each a line of what the reader or the
// writer makes of it (tests/per/README.md has the form of both).
#![tactic(auto)]

mod line;
mod numbers;
mod reading;
mod room;
mod writing;

use crate::line::LINE;
use std::io::Read;
use trace_io::input::read_full;
use trace_io::lines::{Lines, OUTPUT};

const READ: u8 = 0;

const WRITE: u8 = 1;

// The line of a frame: a kind, and its body. A frame that is neither kind gives a question mark.
fn answer(lines: &mut Lines<LINE>, frame: &[u8]) {
    match frame {
        [READ, body @ ..] => reading::answer(lines, body),
        [WRITE, body @ ..] => writing::answer(lines, body),
        _ => lines.say(b"?"),
    }
}

// One frame: two octets of length, and that many more; and its line, which is written at once. False where the input ends or the line cannot be written.
fn run_next<R: Read>(input: &mut R, room: &mut [u8], lines: &mut Lines<LINE>) -> bool {
    let mut head = [0u8; 2];
    if read_full(input, &mut head) < 2 {
        return false;
    }
    let n = numbers::pair(&head, 0) as usize;
    if room.len() < n || read_full(input, &mut room[..n]) < n {
        return false;
    }
    answer(lines, &room[..n]);
    lines.say(b"\n");
    lines.flush()
}

fn main(rt: HostRuntime) {
    let mut input = rt.stdin();
    let mut room = io::large_buffer();
    let mut lines = Lines::<LINE>::to(OUTPUT);
    // Frame by frame to the end of the input; the count only makes the loop end.
    for _ in 0..u64::MAX {
        if !run_next(&mut input, &mut room, &mut lines) {
            break;
        }
    }
}
