// A message that is given to the writer: the octets that it makes of it, and whether it left the others.
ghost use Rattle.std.specs.Prelude.{◌≤◌};

use crate::line::LINE;
use crate::{line, numbers, room};
use codec_octets::Refusal;
use trace_io::lines::Lines;

// The line of n octets written: these, and the mark, that all behind them stayed.
fn put_octets(lines: &mut Lines<LINE>, out: &[u8], n: usize) {
    if out.len() < n {
        lines.say(b"?");
        return;
    }
    let octets = &out[..n];
    line::put_octets(lines, octets);
    line::put_mark(lines, room::holds(out, octets));
}

// The line of a refusal, and the mark, that all octets stayed.
fn put_refused(lines: &mut Lines<LINE>, out: &[u8], refusal: u8) {
    line::put_refusal(lines, refusal);
    line::put_mark(lines, room::holds(out, &[]));
}

// The line of what the writer did to a room.
fn put_outcome(lines: &mut Lines<LINE>, wrote: Result<usize, Refusal>, out: &[u8]) {
    match wrote {
        Ok(n) => put_octets(lines, out, n),
        Err(refusal) => put_refused(lines, out, refusal.into()),
    }
}

// The message of a frame with these parts, written into as much of a room as the frame says.
fn put_written(
    lines: &mut Lines<LINE>,
    body: &[u8],
    values: &[u32],
    ids: &[u16],
    octets: &[u8],
    out: &mut [u8],
) {
    let size = numbers::pair(body, 1) as usize;
    if out.len() < size {
        lines.say(b"?");
        return;
    }
    let number = numbers::octet(body, 0);
    let wrote = codec_write::encode(number, values, ids, octets, &mut out[0..size]);
    put_outcome(lines, wrote, out);
}

// The message of a frame with so many values and ids, and octets to the end; a question mark where the frame is too short.
fn put_given(lines: &mut Lines<LINE>, body: &[u8], many: usize, count: usize)
    requires { (many ≤ 8) × (count ≤ 128) }
{
    let list = 5 + 4 * many;
    let rest = list + 2 * count;
    if body.len() < rest {
        lines.say(b"?");
        return;
    }
    let values = numbers::values_of(body);
    let ids = numbers::ids_of(&body[list..]);
    let mut out = room::fresh();
    put_written(
        lines,
        body,
        &values[0..many],
        &ids[0..count],
        &body[rest..],
        &mut out,
    );
}

// The line of a message to be written: number, two octets of room, how many values, how many ids; then these, and octets to the end.
// A question mark where values or ids are more than there is place for.
pub fn answer(lines: &mut Lines<LINE>, body: &[u8]) {
    let many = numbers::octet(body, 3) as usize;
    let count = numbers::octet(body, 4) as usize;
    if many > 8 || count > 128 {
        lines.say(b"?");
        return;
    }
    put_given(lines, body, many, count);
}
