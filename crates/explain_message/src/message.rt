// A message in words: its name, and its fields and list by name.
ghost use Rattle.std.specs.Prelude.{◌≡◌, [], ◌∷◌, ◌≤◌};
ghost use Rattle.codec_read.specs.Held.{decoded};
ghost use Rattle.codec_read.specs.Reading.{decode_of};
ghost use Rattle.trace_io.specs.Lines.{each};
ghost use Rattle.trace_io.specs.Waiting.{SaysTo};
ghost use Rattle.explain_message.specs.Messages.{value_text, field_texts, id_texts, ids_texts, list_texts, octets_texts, items_texts, tail_texts, unread_texts, read_texts, message_texts};

use codec_read::{Decoded, Items};
use explain_words::fields::field_word;
use explain_words::words::{say_named, say_word};
use trace_io::lines::Lines;

// The value of a field of a kind of the table of messages: a code by its name, an id or an integer in decimal.
fn put_value<const N: usize>(lines: &mut Lines<N>, kind: u8, value: u32)
    ensures { SaysTo lines.old (value_text kind value ∷ []) lines.new }
{
    match kind {
        0 => say_named(lines, explain_words::words::RESULT, 16, value),
        1 => say_named(lines, explain_words::words::DIAGNOSTIC, 14, value),
        2 => say_named(lines, explain_words::words::REASON, 5, value),
        3 => say_named(lines, explain_words::words::STATUS, 8, value),
        _ => lines.say_number(value as u64),
    }
}

// Field i of a message, its name and its value, each behind a space.
fn put_field<const N: usize>(lines: &mut Lines<N>, number: u32, i: usize, value: u32)
    ensures { SaysTo lines.old (field_texts number i value) lines.new }
{
    lines.say(b" ");
    say_word(lines, field_word(number, i));
    lines.say(b" ");
    put_value(lines, codec_table::kind_of(number, i), value);
}

// The first fields of a message.
fn put_fields<const N: usize>(lines: &mut Lines<N>, number: u32, values: &[u32])
    ensures { SaysTo lines.old (each (field_texts number) 0 values.now) lines.new }
{
    for (i, value) in values.iter().enumerate() {
        put_field(lines, number, i, *value);
    }
}

// An id behind a space.
pub fn put_id<const N: usize>(lines: &mut Lines<N>, id: u16)
    ensures { SaysTo lines.old (id_texts id) lines.new }
{
    lines.say(b" ");
    lines.say_number(id as u64);
}

// Ids, each behind a space.
fn put_ids<const N: usize>(lines: &mut Lines<N>, ids: &[u16])
    ensures { SaysTo lines.old (each ids_texts 0 ids.now) lines.new }
{
    for id in ids {
        put_id(lines, *id);
    }
}

// A list of ids, or that there is none.
fn put_list<const N: usize>(lines: &mut Lines<N>, ids: &[u16])
    ensures { SaysTo lines.old (list_texts ids.now) lines.new }
{
    if ids.len() == 0 {
        lines.say(b" none");
        return;
    }
    put_ids(lines, ids);
}

// Octets, or that there are none.
pub fn put_octets<const N: usize>(lines: &mut Lines<N>, octets: &[u8])
    ensures { SaysTo lines.old (octets_texts octets.now) lines.new }
{
    if octets.len() == 0 {
        lines.say(b" none");
        return;
    }
    lines.say_octets(octets, true);
}

// The items of a message: its string in the octets read, or its ids.
fn put_items<const N: usize>(lines: &mut Lines<N>, items: Items, ids: &[u16], octets: &[u8])
    ensures { SaysTo lines.old (items_texts items ids.now octets.now) lines.new }
{
    match items {
        Items::Octets { start, .. } => {
            let from = start.min(octets.len());
            put_octets(lines, &octets[from..]);
        }
        Items::Ids(count) => {
            let end = count.min(ids.len());
            put_list(lines, &ids[..end]);
        }
    }
}

// What follows the fields, by its kind in the table of messages: its name, and the items.
fn put_tail<const N: usize>(
    lines: &mut Lines<N>,
    kind: u8,
    items: Items,
    ids: &[u16],
    octets: &[u8],
)
    ensures { SaysTo lines.old (tail_texts kind items ids.now octets.now) lines.new }
{
    if kind == 0 {
        return;
    }
    lines.say(b" ");
    say_named(lines, explain_words::words::PART, 3, kind as u32 - 1);
    put_items(lines, items, ids, octets);
}

// A message that is not read: its name, or its number where it has none, or nothing where there are no octets.
fn put_unread<const N: usize>(lines: &mut Lines<N>, octets: &[u8])
    ensures { SaysTo lines.old (unread_texts octets.now) lines.new }
{
    if octets.len() == 0 {
        lines.say(b"no octets");
        return;
    }
    let number = codec_octets::wide(octets[0]) / 4;
    if number < 43 {
        say_named(lines, explain_words::words::MESSAGE, 43, number);
        return;
    }
    lines.say(b"number ");
    lines.say_number(number as u64);
}

// A message that is read of some octets: its name, its fields, and what follows them.
fn put_read<const N: usize>(lines: &mut Lines<N>, octets: &[u8], d: Decoded)
    ensures { SaysTo lines.old (read_texts octets.now d) lines.new }
{
    let number = d.head.number;
    let values = d.head.values;
    let ids = d.ids;
    let all_values = &values[..];
    let have = d.head.have.min(all_values.len());
    say_named(lines, explain_words::words::MESSAGE, 43, number);
    put_fields(lines, number, &all_values[..have]);
    let kind = codec_table::tail_of(number);
    put_tail(lines, kind, d.head.items, &ids, octets);
}

// A message in words, of any octets.
pub fn put_message<const N: usize>(lines: &mut Lines<N>, octets: &[u8])
    ensures { SaysTo lines.old (message_texts octets.now (decoded octets.now (decode_of octets.now))) lines.new }
{
    match codec_read::decode(octets) {
        Ok(d) => put_read(lines, octets, d),
        Err(_) => put_unread(lines, octets),
    }
}
