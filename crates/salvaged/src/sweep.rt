// A trace that is read and written as it comes, salvaged window by window.
ghost use Rattle.std.specs.Prelude.{◌≡◌, length};

use salvage_window::{Stand, Turn, cut_size, lead, turn_over};
use std::io::{Error, ErrorKind, Read, Write};
use trace_frames::fault::Fault;
use trace_io::input::Span;
use trace_io::lines::{ERRORS, LARGE, Lines};

// So many octets decide what is done at a place: two frames.
const ENOUGH: usize = 131074;

// Where the run stands in the trace, and the octets that are read and not passed; why the cut began that is open or was the last; what is kept and cut so far;
// how much of the frames and of the text waits to be written; whether there is more to do, and which call of the system failed.
#[derive(Clone, Copy)]
struct Run {
    stand: Stand,
    span: Span,
    fault: Option<Fault>,
    kept: u64,
    cut: u64,
    spans: u64,
    held: usize,
    more: bool,
    failure: Option<Failure>,
}

// Which call of the system failed, and why.
#[derive(Clone, Copy)]
enum Failure {
    Read(Error),
    Write(Error),
}

// Room for a window.
fn window_room() -> [u8; 1048576]
    ensures { 1048576 ≡ length result }
{
    [0; 1048576]
}

fn begin() -> Run {
    Run {
        stand: Stand {
            at: 0,
            cutting: false,
            from: 0,
        },
        span: trace_io::input::start(),
        fault: None,
        kept: 0,
        cut: 0,
        spans: 0,
        held: 0,
        more: true,
        failure: None,
    }
}

// The run is over: a call of the system failed.
fn fail(run: Run, failure: Failure) -> Run {
    Run {
        more: false,
        failure: Some(failure),
        ..run
    }
}

// Whether the window is too short to decide.
fn is_short(span: Span) -> bool {
    if span.ended {
        return false;
    }
    if span.to < span.from {
        return true;
    }
    span.to - span.from < ENOUGH
}

// Reads once behind the octets that are not passed.
fn fetch<R: Read>(input: &mut R, buf: &mut [u8], run: Run) -> Run {
    let n = trace_io::input::to_start(buf, run.span);
    match input.read(&mut buf[n..]) {
        Ok(k) => {
            let span = Span {
                from: 0,
                to: n + k,
                ended: k == 0,
            };
            Run { span, ..run }
        }
        Err(why) => fail(run, Failure::Read(why)),
    }
}

// The octets of a span; none where it does not lie in the buffer.
fn window(buf: &[u8], span: Span) -> &[u8] {
    let from = span.from;
    let to = span.to;
    if from <= to {
        if to <= buf.len() {
            return &buf[from..to];
        }
    }
    &buf[0..0]
}

// The octets of a turn are passed.
fn pass(run: Run, t: Turn) -> Run {
    let from = run.span.from.saturating_add(t.octets);
    Run {
        stand: lead(run.stand, t),
        span: Span { from, ..run.span },
        ..run
    }
}

// Writes the frames that wait.
fn flush<W: Write>(output: &mut W, out: &[u8], held: usize) -> Result<(), Error> {
    if held <= out.len() {
        return output.write_all(&out[0..held]);
    }
    Err(Error::from(ErrorKind::InvalidInput))
}

// Frames that do not fit behind those that wait are written after them; a short run waits.
fn write_on<W: Write>(output: &mut W, out: &mut [u8], os: &[u8], run: Run) -> Run {
    let mut r = run;
    r.held = 0;
    if let Err(why) = flush(output, out, run.held) {
        return fail(r, Failure::Write(why));
    }
    if os.len() < out.len() {
        out[..os.len()].copy_from_slice(os);
        r.held = os.len();
        return r;
    }
    match output.write_all(os) {
        Ok(()) => r,
        Err(why) => fail(r, Failure::Write(why)),
    }
}

// Puts frames behind those that wait, where there is room for them.
fn put<W: Write>(output: &mut W, out: &mut [u8], os: &[u8], run: Run) -> Run {
    let held = run.held;
    if held <= out.len() {
        if os.len() <= out.len() - held {
            let end = held + os.len();
            out[held..end].copy_from_slice(os);
            return Run { held: end, ..run };
        }
    }
    write_on(output, out, os, run)
}

// Frames are kept.
fn keep<W: Write>(output: &mut W, out: &mut [u8], os: &[u8], run: Run) -> Run {
    let kept = run.kept.saturating_add(os.len() as u64);
    put(output, out, os, Run { kept, ..run })
}

// A cut goes on, or ends here.
fn cut(lines: &mut Lines<LARGE>, run: Run) -> Run {
    let stand = run.stand;
    if stand.cutting {
        return run;
    }
    let size = cut_size(stand);
    super::report::tell_cut(lines, stand.from, size, run.fault);
    Run {
        cut: run.cut.saturating_add(size),
        spans: run.spans.saturating_add(1),
        ..run
    }
}

// A cut opens here.
fn open(window: &[u8], run: Run) -> Run {
    Run {
        fault: trace_frames::fault::fault_of(window),
        ..run
    }
}

// A turn over what is read.
fn advance<W: Write>(
    output: &mut W,
    buf: &[u8],
    out: &mut [u8],
    lines: &mut Lines<LARGE>,
    run: Run,
) -> Run {
    let w = window(buf, run.span);
    let t = turn_over(w, run.span.ended, run.stand.cutting);
    let n = t.octets;
    let mut r = pass(run, t);
    if run.stand.cutting {
        return cut(lines, r);
    }
    if t.kept {
        return keep(output, out, &w[0..n], r);
    }
    if t.cutting {
        return open(w, r);
    }
    r.more = false;
    r
}

// Reads where the window is too short, else takes a turn.
fn step<R: Read, W: Write>(
    input: &mut R,
    output: &mut W,
    buf: &mut [u8],
    out: &mut [u8],
    lines: &mut Lines<LARGE>,
    run: Run,
) -> Run {
    if is_short(run.span) {
        return fetch(input, buf, run);
    }
    advance(output, buf, out, lines, run)
}

// Turn by turn to the end of the trace; the count only makes the loop end.
fn play<R: Read, W: Write>(
    input: &mut R,
    output: &mut W,
    buf: &mut [u8],
    out: &mut [u8],
    lines: &mut Lines<LARGE>,
) -> Run {
    let mut run = begin();
    for _ in 0..u64::MAX {
        if !run.more {
            break;
        }
        run = step(input, output, buf, out, lines, run);
    }
    run
}

// Writes the frames that still wait.
fn last<W: Write>(output: &mut W, out: &[u8], run: Run) -> Run {
    match flush(output, out, run.held) {
        Ok(()) => run,
        Err(why) => fail(run, Failure::Write(why)),
    }
}

// Writes what waits, and behind it the totals, or why the run ended before.
fn finish<W: Write>(output: &mut W, out: &[u8], lines: &mut Lines<LARGE>, run: Run) {
    let r = last(output, out, run);
    if r.failure.is_none() {
        super::report::tell_all(lines, r.kept, r.cut, r.spans);
    }
    lines.flush();
    match r.failure {
        None => {}
        Some(Failure::Read(why)) => super::report::tell_error(b"cannot read the trace", &why),
        Some(Failure::Write(why)) => super::report::tell_error(b"cannot write", &why),
    }
}

// Salvages the trace that comes in, and writes what is kept.
pub fn salvage<R: Read, W: Write>(input: &mut R, output: &mut W) {
    let mut buf = window_room();
    let mut out = io::large_buffer();
    let mut lines = Lines::<LARGE>::to(ERRORS);
    let run = play(input, output, &mut buf, &mut out, &mut lines);
    finish(output, &out, &mut lines, run);
}
