// Trace frames: 2 octets of length, version, kind, connection, octets.
#![tactic(auto)]

ghost use Rattle.std.specs.Prelude.{◌≡◌, ◌+◌, ◌*◌, length, leb};
ghost use Rattle.trace_frames.specs.Frames.{meaning, front, frame, of_kind, kind_number, size_of};
ghost use Rattle.trace_frames.specs.Good.{good_size, some_size};

pub mod fault;

// What a frame tells of its connection: it opens, it is lost, or a message came on it.
#[derive(Clone, Copy)]
pub enum Kind {
    Open,
    Loss,
    Message,
}

// What stands at the front of a trace.
#[derive(Clone, Copy)]
pub enum Frame {
    // Nothing: the trace is over.
    End,
    // A good frame: its octets run from start to size, which is where the next frame begins.
    Good {
        kind: Kind,
        connection: u8,
        start: usize,
        size: usize,
    },
    // No good frame: reply 11.
    Bad,
}

// How many octets follow the two octets of length.
pub fn following(first: u8, second: u8) -> usize
    ensures { result ≡ first * 256 + second }
{
    first as usize * 256 + second as usize
}

// Whether s holds all octets of the frame at its front, good or bad.
pub fn whole(s: &[u8]) -> bool
    ensures { result ≡ leb (size_of s.now) (length s.now) }
{
    if s.len() < 2 {
        return false;
    }
    let size = 2 + following(s[0], s[1]);
    size <= s.len()
}

// A frame whose octets start behind its connection.
fn framed(kind: Kind, connection: u8, size: usize) -> Frame
    ensures { meaning result ≡ frame (kind_number kind) connection 5 size }
{
    Frame::Good {
        kind,
        connection,
        start: 5,
        size,
    }
}

// A frame with no octets may be of any kind.
fn bare(kind: u8, connection: u8) -> Frame
    ensures { meaning result ≡ of_kind kind connection 5 }
{
    match kind {
        0 => framed(Kind::Open, connection, 5),
        1 => framed(Kind::Loss, connection, 5),
        2 => framed(Kind::Message, connection, 5),
        _ => Frame::Bad,
    }
}

// A whole frame of a known version, judged by its kind: only a message has octets.
fn of_kind(kind: u8, connection: u8, size: usize) -> Frame
    ensures { meaning result ≡ of_kind kind connection size }
{
    if size == 5 {
        return bare(kind, connection);
    }
    if kind != 2 {
        return Frame::Bad;
    }
    framed(Kind::Message, connection, size)
}

// What stands at the front of s, for any octets.
pub fn next_frame(s: &[u8]) -> Frame
    ensures { meaning result ≡ front s.now }
{
    if s.len() == 0 {
        return Frame::End;
    }
    if s.len() < 5 {
        return Frame::Bad;
    }
    let size = 2 + following(s[0], s[1]);
    if size < 5 {
        return Frame::Bad;
    }
    if s.len() < size {
        return Frame::Bad;
    }
    let version = s[2];
    if version != 1 {
        return Frame::Bad;
    }
    of_kind(s[3], s[4], size)
}

// How many octets the good frame at the front of s has, where one begins there.
pub fn good_size(s: &[u8]) -> Option<usize>
    ensures { result ≡ some_size (good_size s.now) }
{
    match next_frame(s) {
        Frame::End => None,
        Frame::Good {
            kind: _,
            connection: _,
            start: _,
            size,
        } => Some(size),
        Frame::Bad => None,
    }
}
