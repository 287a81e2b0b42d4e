// The trace program's run: reads frames, plays each on the domain, and prints a line for each.
#![tactic(auto)]

ghost use Rattle.std.specs.Prelude.{◌≤◌, length, IfSome};

use domain::Limits;
use domain::answer::Answer;
use domain::numbers::Reply;
use domain_tables::{Channels, Domain, Members, Tokens, Users};
use std::io::Read;
use trace_frames::{Frame, Kind};
use trace_io::input::Span;
use trace_io::lines::{LARGE, Lines, OUTPUT, Report};

// Room for answers that never meets reply 9.
const ROOM: usize = 17200;

// How a run shows its frames: a line each, a line and the octets sent, or in words.
#[derive(Clone, Copy)]
pub enum Form {
    Lines,
    Sent,
    Words,
}

// A frame that was taken: what it is answered with, and how many octets it is long. A bad one, behind which no other is sought, has no length.
#[derive(Clone, Copy)]
struct Taken {
    answer: Answer,
    size: Option<usize>,
}

// An event of this kind on a connection.
fn event(
    d: &mut Domain,
    kind: Kind,
    connection: u8,
    message: &[u8],
    room: &mut [u8; ROOM],
) -> Answer {
    match kind {
        Kind::Open => Answer {
            reply: serve_session::open(&mut d.links, connection),
            sent: 0,
        },
        Kind::Loss => provider::lose(d, connection, room),
        Kind::Message => provider::message(d, connection, message, room),
    }
}

// Takes the frame at the front of s and plays it; none where the trace is over.
fn take_frame(s: &[u8], d: &mut Domain, room: &mut [u8; ROOM]) -> Option<Taken>
    ensures { IfSome result (λ t. IfSome t.size (λ n. n ≤ length s.now)) }
{
    match trace_frames::next_frame(s) {
        Frame::End => None,
        Frame::Bad => Some(Taken {
            answer: Answer {
                reply: Reply::BadFrame,
                sent: 0,
            },
            size: None,
        }),
        Frame::Good {
            kind,
            connection,
            start,
            size,
        } => Some(Taken {
            answer: event(d, kind, connection, &s[start..size], room),
            size: Some(size),
        }),
    }
}

// The line of an answer: the reply, octets sent, users, channels and tokens in use.
fn report(answer: Answer, d: &Domain) -> Report {
    Report {
        reply: u64::from(u8::from(answer.reply)),
        sent: answer.sent as u64,
        users: serve_session::in_use(&d.users.ids) as u64,
        channels: serve_session::in_use(&d.channels.ids) as u64,
        tokens: serve_session::in_use(&d.tokens.ids) as u64,
    }
}

// Says the line of a report, and behind it the octets sent on a line of their own.
fn say_sent(lines: &mut Lines<LARGE>, report: Report, room: &[u8; ROOM]) {
    lines.say_report(report);
    let sent = (report.sent % 65536) as usize;
    if sent <= ROOM {
        lines.say_octets(&room[..sent], false);
        lines.say(b"\n");
    }
}

// Shows a frame in the form of the run.
fn show(
    lines: &mut Lines<LARGE>,
    form: Form,
    number: u64,
    s: &[u8],
    report: Report,
    room: &[u8; ROOM],
    d: &Domain,
    old_tokens: &mut Tokens,
) {
    match form {
        Form::Lines => lines.say_report(report),
        Form::Sent => say_sent(lines, report, room),
        Form::Words => explain_frame::put_frame(
            lines, number, s, report, room, &d.users, &d.tokens, old_tokens,
        ),
    }
}

// What is left of a span behind its first octets; nothing where it has fewer.
fn behind(span: Span, size: usize) -> Span {
    Span {
        from: span.from.saturating_add(size).min(span.to),
        ..span
    }
}

// Takes one frame and shows it. What is left of the input, where the run goes on: behind a good frame.
fn step<R: Read>(
    source: &mut R,
    input: &mut [u8],
    have: Span,
    lines: &mut Lines<LARGE>,
    form: Form,
    number: u64,
    d: &mut Domain,
    old_tokens: &mut Tokens,
    room: &mut [u8; ROOM],
) -> Option<Span> {
    let span = trace_io::input::ready(source, input, have);
    let s = &input[span.from..span.to];
    let taken = take_frame(s, d, room)?;
    let line = report(taken.answer, d);
    show(lines, form, number, s, line, room, d, old_tokens);
    let size = taken.size?;
    Some(behind(span, size))
}

// A proved loop has to end, and nothing says that the input does: the frames are counted up to a number that no run reaches.
fn play<R: Read>(source: &mut R, lines: &mut Lines<LARGE>, form: Form, d: &mut Domain) {
    let mut input = [0u8; 131072];
    let mut room = [0u8; ROOM];
    let mut old_tokens = no_tokens();
    let mut span = trace_io::input::start();
    for number in 1..u64::MAX {
        match step(
            source,
            &mut input,
            span,
            lines,
            form,
            number,
            d,
            &mut old_tokens,
            &mut room,
        ) {
            Some(rest) => span = rest,
            None => break,
        }
    }
}

// A fresh domain with limits 128, 64, 64, and frames from a source. The input's buffer holds the longest frame, 65,537 octets, and as much again, so that few octets are
// moved. The tokens as they were before a frame stand beside the tables, for a run in words, which ends with their table.
pub fn run<R: Read>(form: Form, source: &mut R) {
    let mut lines = Lines::<LARGE>::to(OUTPUT);
    let mut d = empty();
    serve_session::start(&mut d, 128, 64, 64);
    play(source, &mut lines, form, &mut d);
    if let Form::Words = form {
        explain_tokens::put_table(&mut lines, &d.users, &d.tokens);
    }
    lines.flush();
}

// A domain before its start.
fn empty() -> Domain {
    Domain {
        limits: Limits {
            channels: 0,
            users: 0,
            tokens: 0,
        },
        links: 0,
        users: Users {
            ids: [0; 64],
            links: [0; 64],
        },
        channels: Channels {
            ids: [0; 128],
            kinds: [0; 128],
            managers: [0; 128],
        },
        members: Members {
            admitted: [0; 128],
            joined: [0; 128],
        },
        tokens: no_tokens(),
    }
}

fn no_tokens() -> Tokens {
    Tokens {
        ids: [0; 64],
        states: [0; 64],
        values: [0; 64],
    }
}
