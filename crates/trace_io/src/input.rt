// The octets of a trace that are read and not taken yet, in a buffer that the caller lends.
ghost use Rattle.std.specs.Prelude.{◌≡◌, ◌||◌, ◌+◌, ◌-◌, ◌≤◌, leb, length, take, drop};
ghost use Rattle.trace_frames.specs.Frames.{size_of};
ghost use Rattle.trace_io.specs.Input.{nothing, Within, clip, unread, Starts, Refills, Ready};

use std::io::Read;

// Which octets of the buffer are read and not taken, and whether the input has ended.
#[derive(Clone, Copy)]
pub struct Span {
    pub from: usize,
    pub to: usize,
    pub ended: bool,
}

// Nothing is read yet.
pub fn start() -> Span
    ensures { result ≡ nothing }
{
    Span {
        from: 0,
        to: 0,
        ended: false,
    }
}

// A span of a buffer of this length: one that does not lie in it is empty.
fn clipped(room: usize, have: Span) -> Span
    ensures { (result ≡ clip room have) × Within room result }
{
    if have.from <= have.to {
        if have.to <= room {
            return have;
        }
    }
    Span {
        from: 0,
        to: 0,
        ended: have.ended,
    }
}

// Moves the octets from one place to another to the front, and answers how many they are.
fn to_front(buf: &mut [u8], from: usize, to: usize) -> usize
    requires { (from ≤ to) × (to ≤ length buf.old) }
    ensures { (result ≡ to - from) × (take result buf.new ≡ take (to - from) (drop from buf.old)) }
{
    let n = to - from;
    if from == 0 {
        return n;
    }
    let mut i = 0;
    while i < n {
        buf[i] = buf[from + i];
        i += 1;
    }
    n
}

// Moves the octets that are not taken to the front, and answers how many they are.
pub fn to_start(buf: &mut [u8], have: Span) -> usize
    ensures { Starts buf.old (clip (length buf.old) have) buf.new result }
{
    let span = clipped(buf.len(), have);
    let from = span.from;
    let to = span.to;
    to_front(buf, from, to)
}

// Reads once, and answers how many octets came. A read that fails brings none.
fn read_once<R: Read>(input: &mut R, room: &mut [u8]) -> usize
    ensures { result ≤ length room.new }
{
    match input.read(room) {
        Ok(n) => n,
        Err(_) => 0,
    }
}

// Reads until the room is full, the input ends or a read fails, and answers how many octets came.
pub fn read_full<R: Read>(input: &mut R, room: &mut [u8]) -> usize
    ensures { result ≤ length room.new }
{
    let mut done = 0;
    while done < room.len() {
        let n = read_once(input, &mut room[done..]);
        if n == 0 {
            return done;
        }
        done += n;
    }
    done
}

// Reads once behind the octets that are not taken. Where nothing comes, the input has ended.
fn refill<R: Read>(input: &mut R, buf: &mut [u8], have: Span) -> Span
    requires { Within (length buf.old) have }
    ensures { Refills buf.old have buf.new result }
{
    let from = have.from;
    let to = have.to;
    let n = to_front(buf, from, to);
    let more = read_once(input, &mut buf[n..]);
    let end = n + more;
    Span {
        from: 0,
        to: end,
        ended: more == 0,
    }
}

// Whether there is nothing to wait for: a whole frame is there, or the input has ended.
fn settled(buf: &[u8], have: Span) -> bool
    requires { Within (length buf.now) have }
    ensures { result ≡ (have.ended || leb (size_of (unread buf.now have)) (length (unread buf.now have))) }
{
    if have.ended {
        return true;
    }
    let from = have.from;
    let to = have.to;
    trace_frames::whole(&buf[from..to])
}

// Reads until a whole frame stands at the front of what is not taken, or the input has ended.
pub fn ready<R: Read>(input: &mut R, buf: &mut [u8], have: Span) -> Span
    ensures { Ready buf.old (clip (length buf.old) have) buf.new result }
{
    let mut span = clipped(buf.len(), have);
    while !settled(buf, span) {
        span = refill(input, buf, span);
    }
    span
}
