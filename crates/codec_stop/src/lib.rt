// Where the reading of a message stops, and why: the refusal is decode's, the place is found by reading field by field.
#![tactic(auto)]

ghost use Rattle.std.specs.Prelude.{◌≡◌, ◌*◌, ◌<◌, ◌≤◌, length};
ghost use Rattle.codec_table.specs.Limits.{message_limit};
ghost use Rattle.codec_read.specs.Reading.{decode_of};
ghost use Rattle.codec_stop.specs.Stops.{refusal_of, told};

use codec_cursor::field_of;
use codec_octets::{Refusal, left_at, read_id, read_length, wide};
use codec_table::{MESSAGE_LIMIT, count_of, form_of, kind_of, tail_of};

// The part of a message: its number, a field by its place, the list or string behind the fields, or the end.
#[derive(Clone, Copy)]
pub enum Part {
    Number,
    Field(usize),
    Items,
    End,
}

#[derive(Clone, Copy)]
pub enum Why {
    // All is read.
    Read,
    // 0 octets or above 1,024.
    Size,
    // The number is above 42.
    Unknown,
    // The codec does not cover the message.
    Uncovered,
    // Octets are missing.
    Missing,
    // Bits that are skipped, or at the end, are not 0.
    Skipped,
    // A code above its largest value, an id above 65,535.
    Range,
    // A length below 128 in two octets.
    LongForm,
    Fragmented,
    // A list above its limit.
    Many,
    // An integer of 0 octets, above 4, or with more octets than it takes.
    Empty,
    Wide,
    Padded,
    // Octets are left over.
    Left,
}

// The refusal, none where all is read; the bit where what is refused starts; its part of the message; and why.
#[derive(Clone, Copy)]
pub struct Stop {
    pub refusal: Option<Refusal>,
    pub bit: usize,
    pub part: Part,
    pub why: Why,
}

// A refusal at a bit.
fn stop_at(refusal: Refusal, bit: usize, part: Part, why: Why) -> Stop
    ensures { result.refusal ≡ Some refusal }
{
    Stop {
        refusal: Some(refusal),
        bit,
        part,
        why,
    }
}

// Whether a bit up to the next octet is not 0.
fn skips(s: &[u8], bit: usize) -> bool {
    let i = bit / 8;
    if s.len() <= i {
        return false;
    }
    wide(s[i]) % (1u32 << left_at(bit)) != 0
}

// Octets or bits are missing where fewer are left than are needed; else another reason.
fn missing_or(left: usize, needed: usize, other: Why) -> Why {
    if left < needed {
        return Why::Missing;
    }
    other
}

// Why a length is refused, where so many octets are left.
fn why_length(left: usize, refusal: Refusal) -> Why {
    if refusal == Refusal::TooLong {
        return Why::Fragmented;
    }
    missing_or(left, 2, Why::LongForm)
}

// Where an integer from octet i on is refused: at its length, or behind it.
fn stop_number(s: &[u8], i: usize, part: Part, refusal: Refusal) -> Stop
    requires { (i ≤ length s.now) × (length s.now ≤ message_limit) }
    ensures { result.refusal ≡ Some refusal }
{
    let bit = i * 8;
    let Ok(length) = read_length(s, i) else {
        return stop_at(refusal, bit, part, why_length(s.len() - i, refusal));
    };
    if refusal == Refusal::TooLong {
        return stop_at(refusal, bit, part, Why::Wide);
    }
    if length.value == 0 {
        return stop_at(refusal, bit, part, Why::Empty);
    }
    let at = length.next;
    let why = missing_or(s.len() - at, length.value as usize, Why::Padded);
    stop_at(refusal, at * 8, part, why)
}

// Where field i, of a kind of the table of messages, is refused: a code of 4 or 3 bits, an id or an integer on the next octet.
fn stop_field(s: &[u8], bit: usize, i: usize, kind: u8, refusal: Refusal) -> Stop
    requires { (bit ≤ length s.now * 8) × (length s.now ≤ message_limit) }
    ensures { result.refusal ≡ Some refusal }
{
    let part = Part::Field(i);
    if kind < 4 {
        let width = if kind < 2 { 4 } else { 3 };
        let why = missing_or(s.len() * 8 - bit, width, Why::Range);
        return stop_at(refusal, bit, part, why);
    }
    if skips(s, bit) {
        return stop_at(refusal, bit, part, Why::Skipped);
    }
    let j = (bit + 7) / 8;
    if kind < 7 {
        return stop_at(refusal, j * 8, part, missing_or(s.len() - j, 2, Why::Range));
    }
    stop_number(s, j, part, refusal)
}

// Where one of some ids above the lowest of their kind is refused, from octet `from` on; or what is left over behind them.
fn stop_ids(s: &[u8], from: usize, low: u16, count: u32, refusal: Refusal) -> Stop
    requires { (from ≤ length s.now) × (length s.now ≤ message_limit) }
    ensures { result.refusal ≡ Some refusal }
{
    let mut at = from;
    for _ in 0..count {
        let Ok(id) = read_id(s, at, low) else {
            let why = missing_or(s.len() - at, 2, Why::Range);
            return stop_at(refusal, at * 8, Part::Items, why);
        };
        at = id.next;
    }
    stop_at(refusal, at * 8, Part::End, Why::Left)
}

// Where a list or string is refused whose length n stands at a bit, and whose items start at octet `at`; or what is left over behind it.
fn stop_listed(s: &[u8], bit: usize, at: usize, kind: u8, n: u32, refusal: Refusal) -> Stop
    requires { (at ≤ length s.now) × (length s.now ≤ message_limit) }
    ensures { result.refusal ≡ Some refusal }
{
    if refusal == Refusal::TooLong {
        return stop_at(refusal, bit, Part::Items, Why::Many);
    }
    if kind < 3 {
        let low = if kind == 1 { 0 } else { 1001 };
        return stop_ids(s, at, low, n, refusal);
    }
    let k = n as usize;
    if s.len() - at < k {
        return stop_at(refusal, at * 8, Part::Items, Why::Missing);
    }
    stop_at(refusal, (at + k) * 8, Part::End, Why::Left)
}

// Where what follows the fields, of a kind of the table of messages, is refused; or what is left over behind it.
fn stop_tail(s: &[u8], bit: usize, kind: u8, refusal: Refusal) -> Stop
    requires { (bit ≤ length s.now * 8) × (length s.now ≤ message_limit) }
    ensures { result.refusal ≡ Some refusal }
{
    let part = if kind == 0 { Part::End } else { Part::Items };
    if skips(s, bit) {
        return stop_at(refusal, bit, part, Why::Skipped);
    }
    let i = (bit + 7) / 8;
    let from = i * 8;
    if kind == 0 {
        return stop_at(refusal, from, part, Why::Left);
    }
    match read_length(s, i) {
        Err(_) => stop_at(refusal, from, part, why_length(s.len() - i, refusal)),
        Ok(length) => stop_listed(s, from, length.next, kind, length.value, refusal),
    }
}

// Where the fields of a message, from a bit on, or what follows them, are refused.
fn stop_fields(s: &[u8], from: usize, number: u32, count: usize, refusal: Refusal) -> Stop
    requires { (from ≤ length s.now * 8) × (length s.now ≤ message_limit) }
    ensures { result.refusal ≡ Some refusal }
{
    let mut bit = from;
    for i in 0..count {
        let kind = kind_of(number, i);
        let Ok(field) = field_of(s, bit, kind) else {
            return stop_field(s, bit, i, kind, refusal);
        };
        bit = field.next;
    }
    stop_tail(s, bit, tail_of(number), refusal)
}

// Where a message is refused, by its number, in the first 6 bits; the next bit may say that an OPTIONAL field is there.
fn stop_row(s: &[u8], refusal: Refusal) -> Stop
    requires { (0 < length s.now) × (length s.now ≤ message_limit) }
    ensures { result.refusal ≡ Some refusal }
{
    let o = wide(s[0]);
    let number = o / 4;
    let form = form_of(number);
    if form == 0 {
        return stop_fields(s, 6, number, count_of(number), refusal);
    }
    if form == 1 {
        let more = (o / 2 % 2) as usize;
        return stop_fields(s, 7, number, count_of(number) + more, refusal);
    }
    if form == 2 {
        return stop_at(refusal, 0, Part::Number, Why::Uncovered);
    }
    stop_at(refusal, 0, Part::Number, Why::Unknown)
}

// Where octets are refused that decode gives a refusal for, or that all is read.
fn stop_message(s: &[u8], refusal: Option<Refusal>) -> Stop
    ensures { result.refusal ≡ refusal }
{
    if s.len() == 0 || MESSAGE_LIMIT < s.len() {
        return Stop {
            refusal,
            bit: 0,
            part: Part::Number,
            why: Why::Size,
        };
    }
    match refusal {
        None => Stop {
            refusal: None,
            bit: s.len() * 8,
            part: Part::End,
            why: Why::Read,
        },
        Some(r) => stop_row(s, r),
    }
}

// Where the reading of these octets stops: with the refusal that decode gives.
pub fn where_stopped(s: &[u8]) -> Stop
    ensures { told result.refusal ≡ refusal_of (decode_of s.now) }
{
    stop_message(s, codec_read::decode(s).err())
}
