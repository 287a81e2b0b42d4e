// A trace in words, frame by frame: what came, the reply, what was sent, and which tokens changed.
#![tactic(auto)]

ghost use Rattle.std.specs.Prelude.{◌≡◌, [], ◌∷◌, ◌≤◌, length, take};
ghost use Rattle.trace_frames.specs.Frames.{front, size_of};
ghost use Rattle.domain_tables.specs.Held.{tokens_in};
ghost use Rattle.trace_io.specs.Lines.{decimal};
ghost use Rattle.trace_io.specs.Waiting.{SaysTo};
ghost use Rattle.explain_stop.specs.StopLine.{Tells};
ghost use Rattle.explain_frame.specs.Sent.{sent_texts};
ghost use Rattle.explain_frame.specs.Frames.{event_texts, octets_line, refused_texts, wrong_texts, counts_texts, reply_texts, bad_texts, good_texts, message_in, front_texts, frame_texts};

mod sent;

use domain_tables::{Tokens, Users};
use explain_words::words::say_named;
use trace_frames::{Frame, Kind};
use trace_io::lines::{Lines, Report};

// A text and the number behind it.
fn put_count<const N: usize>(lines: &mut Lines<N>, text: &[u8], n: u64)
    ensures { SaysTo lines.old (text.now ∷ decimal n ∷ []) lines.new }
{
    lines.say(text);
    lines.say_number(n);
}

// The event of a good frame: a message in words.
fn put_event<const N: usize>(lines: &mut Lines<N>, kind: Kind, connection: u8, message: &[u8])
    ensures { SaysTo lines.old (event_texts kind connection message.now) lines.new }
{
    match kind {
        Kind::Open => put_count(lines, b": open, connection ", connection as u64),
        Kind::Loss => put_count(lines, b": lost, connection ", connection as u64),
        Kind::Message => {
            put_count(lines, b": message, connection ", connection as u64);
            lines.say(b": ");
            explain_message::message::put_message(lines, message);
        }
    }
}

// The line of octets in hexadecimal.
fn put_octets_line<const N: usize>(lines: &mut Lines<N>, octets: &[u8])
    ensures { SaysTo lines.old (octets_line octets.now) lines.new }
{
    lines.say(b"  octets");
    explain_message::message::put_octets(lines, octets);
    lines.say(b"\n");
}

// A message that was not read, or that a connection that is not open sent and that cannot be read: its octets, and for 5 and 8 where reading stopped.
fn put_refused<const N: usize>(lines: &mut Lines<N>, reply: u64, message: &[u8])
    ensures { Tells message.now (refused_texts reply message.now) lines.old lines.new }
{
    if reply < 4 {
        return;
    }
    if 8 < reply {
        return;
    }
    put_octets_line(lines, message);
    if reply == 5 || reply == 8 {
        explain_stop::put_stop(lines, message);
    }
}

// The octets of a message on a connection that is not open, where they cannot be read.
fn put_unread<const N: usize>(lines: &mut Lines<N>, reply: u64, kind: Kind, message: &[u8])
    ensures { Tells message.now (wrong_texts reply kind message.now) lines.old lines.new }
{
    if reply != 2 {
        put_refused(lines, reply, message);
        return;
    }
    match kind {
        Kind::Open => {}
        Kind::Loss => {}
        Kind::Message => {
            let s = codec_stop::where_stopped(message);
            match s.refusal {
                None => {}
                Some(_) => put_octets_line(lines, message),
            }
        }
    }
}

// Users, channels and tokens in use.
fn put_counts<const N: usize>(lines: &mut Lines<N>, report: Report)
    ensures { SaysTo lines.old (counts_texts report) lines.new }
{
    put_count(lines, b", users ", report.users);
    put_count(lines, b", channels ", report.channels);
    put_count(lines, b", tokens ", report.tokens);
}

// The line of the reply: its number and meaning, octets sent, users, channels and tokens in use.
fn put_reply<const N: usize>(lines: &mut Lines<N>, report: Report)
    ensures { SaysTo lines.old (reply_texts report) lines.new }
{
    put_count(lines, b"  reply ", report.reply);
    lines.say(b" (");
    say_named(
        lines,
        explain_words::words::REPLY,
        12,
        (report.reply % 65536) as u32,
    );
    put_count(lines, b"), sent ", report.sent);
    put_counts(lines, report);
    lines.say(b"\n");
}

// The octets of a bad frame: as many as its length says, or all that are left.
fn bad_size(s: &[u8]) -> usize
    ensures { (result ≤ length s.now) × (take result s.now ≡ take (size_of s.now) s.now) }
{
    if s.len() < 2 {
        return s.len();
    }
    let n = trace_frames::following(s[0], s[1]);
    if s.len() - 2 <= n {
        return s.len();
    }
    n + 2
}

// A bad frame: its octets.
fn put_bad<const N: usize>(lines: &mut Lines<N>, s: &[u8])
    ensures { SaysTo lines.old (bad_texts s.now) lines.new }
{
    lines.say(b": bad frame\n");
    let size = bad_size(s);
    put_octets_line(lines, &s[..size]);
}

// A good frame: its event, and what was wrong with its message.
fn put_good<const N: usize>(
    lines: &mut Lines<N>,
    kind: Kind,
    connection: u8,
    message: &[u8],
    reply: u64,
)
    ensures { Tells message.now (good_texts reply kind connection message.now) lines.old lines.new }
{
    put_event(lines, kind, connection, message);
    lines.say(b"\n");
    put_unread(lines, reply, kind, message);
}

// What stands at the front of s, in words.
fn put_front<const N: usize>(lines: &mut Lines<N>, s: &[u8], reply: u64)
    ensures { Tells (message_in s.now (front s.now)) (front_texts reply s.now (front s.now)) lines.old lines.new }
{
    let found = trace_frames::next_frame(s);
    match found {
        Frame::End => lines.say(b": end\n"),
        Frame::Bad => put_bad(lines, s),
        Frame::Good {
            kind,
            connection,
            start,
            size,
        } => {
            if s.len() < size {
                return;
            }
            if size < start {
                return;
            }
            put_good(lines, kind, connection, &s[start..size], reply);
        }
    }
}

// The records sent: the first so many octets of the room.
fn put_sent<const N: usize>(lines: &mut Lines<N>, room: &[u8], sent: u64)
    ensures { SaysTo lines.old (sent_texts sent room.now) lines.new }
{
    let k = (sent % 65536) as usize;
    if room.len() < k {
        return;
    }
    sent::put_records(lines, &room[..k]);
}

// A frame, the number of which is given, in words: what stands at the front of s, the reply, the records, the tokens that changed since.
pub fn put_frame<const N: usize>(
    lines: &mut Lines<N>,
    number: u64,
    s: &[u8],
    report: Report,
    room: &[u8],
    users: &Users,
    tokens: &Tokens,
    old: &mut Tokens,
)
    ensures { Tells (message_in s.now (front s.now)) (frame_texts number s.now report room.now users.now.ids
        (tokens_in old.old) (tokens_in tokens.now)) lines.old lines.new
        × (old.new ≡ tokens.now) }
{
    put_count(lines, b"frame ", number);
    put_front(lines, s, report.reply);
    put_reply(lines, report);
    put_sent(lines, room, report.sent);
    explain_tokens::put_changes(lines, users, tokens, old);
}
