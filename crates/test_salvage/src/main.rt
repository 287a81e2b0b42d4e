// Salvages torn traces, the cases of a second program: each case from standard input, and for each a line of the answer and of both rooms as they stand
// then (tests/salvage/README.md has the form of both).
#![tactic(auto)]

use salvage::Salvaged;
use std::io::Read;
use trace_io::input::read_full;
use trace_io::lines::{LARGE, Lines, OUTPUT};

// What a room holds before: so it is seen what stays.
const BLANK: u8 = 170;

// A number, and a space behind it.
fn put_number(lines: &mut Lines<LARGE>, n: u64) {
    lines.say_number(n);
    lines.say(b" ");
}

// The line of a case.
fn show(lines: &mut Lines<LARGE>, r: Salvaged, out: &[u8], list: &[u8]) {
    put_number(lines, r.reply as u64);
    put_number(lines, r.kept as u64);
    put_number(lines, r.cuts as u64);
    lines.say_octets(out, false);
    lines.say(b" ");
    lines.say_octets(list, false);
    lines.say(b"\n");
}

// A trace, salvaged into these rooms, and its line.
fn play(trace: &[u8], out: &mut [u8], list: &mut [u8], lines: &mut Lines<LARGE>) {
    out.fill(BLANK);
    list.fill(BLANK);
    let r = salvage::salvage(trace, out, list);
    show(lines, r, out, list);
}

// The lengths of a case: those of the trace, of the output's room and of the list's.
#[derive(Clone, Copy)]
struct Sizes {
    trace: usize,
    out: usize,
    list: usize,
}

// A case in rooms of just its lengths; nothing where there is too little room for them.
fn play_in(sizes: Sizes, trace: &[u8], out: &mut [u8], list: &mut [u8], lines: &mut Lines<LARGE>) {
    if sizes.trace <= trace.len() && sizes.out <= out.len() && sizes.list <= list.len() {
        play(
            &trace[..sizes.trace],
            &mut out[..sizes.out],
            &mut list[..sizes.list],
            lines,
        );
    }
}

// The lengths of a case, two octets each; none where the input ends.
fn read_sizes<R: Read>(input: &mut R) -> Option<Sizes> {
    let mut head = [0u8; 6];
    if read_full(input, &mut head) < 6 {
        return None;
    }
    Some(Sizes {
        trace: trace_frames::following(head[0], head[1]),
        out: trace_frames::following(head[2], head[3]),
        list: trace_frames::following(head[4], head[5]),
    })
}

// Whether the trace of a case is read.
fn read_trace<R: Read>(input: &mut R, trace: &mut [u8], n: usize) -> bool {
    n <= trace.len() && n <= read_full(input, &mut trace[..n])
}

// One case: its lengths, and the trace. Whether there may be another.
fn run_case<R: Read>(
    input: &mut R,
    trace: &mut [u8],
    out: &mut [u8],
    list: &mut [u8],
    lines: &mut Lines<LARGE>,
) -> bool {
    let Some(sizes) = read_sizes(input) else {
        return false;
    };
    if !read_trace(input, trace, sizes.trace) {
        return false;
    }
    play_in(sizes, trace, out, list, lines);
    true
}

fn main(rt: HostRuntime) {
    let mut input = rt.stdin();
    let mut trace = io::large_buffer();
    let mut out = io::large_buffer();
    let mut list = io::large_buffer();
    let mut lines = Lines::<LARGE>::to(OUTPUT);
    // Case by case to the end of the input; the count only makes the loop end.
    for _ in 0..u64::MAX {
        if !run_case(&mut input, &mut trace, &mut out, &mut list, &mut lines) {
            break;
        }
    }
    lines.flush();
}
