// A message that is read: its number, values and items, and whether it is written again as it was.
ghost use Rattle.std.specs.Prelude.{◌≤◌};

use crate::line::LINE;
use crate::{line, room};
use codec_read::{Head, Items};
use trace_io::lines::Lines;

// Whether the message is written as these octets, with those behind them left as they were.
fn is_written_again(
    number: u32,
    values: &[u32],
    ids: &[u16],
    octets: &[u8],
    message: &[u8],
) -> bool {
    let mut out = room::fresh();
    match codec_write::encode(number, values, ids, octets, &mut out) {
        Ok(n) => n == message.len() && room::holds(&out, message),
        Err(_) => false,
    }
}

// The items behind the values: ` : id ..` where they are ids or none, ` # octets` in hexadecimal where they are a string.
fn put_items(lines: &mut Lines<LINE>, items: Items, ids: &[u16], octets: &[u8]) {
    match items {
        Items::Octets { .. } => {
            lines.say(b" # ");
            line::put_octets(lines, octets);
        }
        Items::Ids(_) => {
            lines.say(b" :");
            for id in ids {
                line::put_number(lines, u64::from(*id));
            }
        }
    }
}

// `number value ..`, the items, and the mark: that the message is written again as it was.
fn put_message(
    lines: &mut Lines<LINE>,
    head: Head,
    values: &[u32],
    ids: &[u16],
    octets: &[u8],
    message: &[u8],
) {
    let is_same = is_written_again(head.number, values, ids, octets, message);
    lines.say_number(u64::from(head.number));
    for value in values {
        line::put_number(lines, u64::from(*value));
    }
    put_items(lines, head.items, ids, octets);
    line::put_mark(lines, is_same);
}

// So many, or none where there are fewer.
fn upto(n: usize, most: usize) -> usize
    ensures { result ≤ most }
{
    if n <= most { n } else { 0 }
}

// The values of a message.
fn values_of<'a>(head: Head, values: &'a [u32]) -> &'a [u32] {
    let n = upto(head.have, values.len());
    &values[..n]
}

// The ids of a message; none where it has a string.
fn ids_of<'a>(items: Items, ids: &'a [u16]) -> &'a [u16] {
    match items {
        Items::Octets { .. } => &ids[..0],
        Items::Ids(count) => {
            let n = upto(count, ids.len());
            &ids[..n]
        }
    }
}

// The string of a message, which lies in the octets read; none where it has ids.
fn string_of<'a>(items: Items, message: &'a [u8]) -> &'a [u8] {
    match items {
        Items::Ids(_) => &message[..0],
        Items::Octets { start, count } => {
            let from = upto(start, message.len());
            let end = from + upto(count, message.len() - from);
            &message[from..end]
        }
    }
}

// The line of octets to be read.
pub fn answer(lines: &mut Lines<LINE>, message: &[u8]) {
    match codec_read_fast::decode(message) {
        Err(refusal) => line::put_refusal(lines, refusal.into()),
        Ok(d) => {
            let head = d.head;
            let values = head.values;
            let ids = d.ids;
            put_message(
                lines,
                head,
                values_of(head, &values),
                ids_of(head.items, &ids),
                string_of(head.items, message),
                message,
            );
        }
    }
}
