// The reader: the message of some octets, or a refusal; and a field at any bit of any octets.
#![tactic(auto)]

ghost use Rattle.std.specs.Prelude.{◌≡◌, ℕ, ◌+◌, ◌*◌, ◌-◌, ◌<◌, ◌≤◌, true, false, List, eqb, length, drop};
ghost use Rattle.codec_table.specs.Answers.{outcome_of};
ghost use Rattle.codec_octets.specs.Octets.{an_id, a_number, an_octet, read_items, read_tail};
ghost use Rattle.codec_table.specs.Limits.{list_limit, message_limit};
ghost use Rattle.codec_table.specs.Messages.{code, item};
ghost use Rattle.codec_table.specs.Columns.{packed_at, field_of, fields_of, tail_of};
ghost use Rattle.codec_octets.specs.Bits.{take_bits, after};
ghost use Rattle.codec_octets.specs.Places.{left_at, bits_at, behind, Bitwise, capped_of, in_bits};
ghost use Rattle.codec_read.specs.Reading.{TakesField, TakesFields, ReadsItems, listed, body_at, row_at, GoesOn, decode_of};
ghost use Rattle.codec_read.specs.Held.{count_of, decoded, has_ids, Reads};
ghost use Rattle.codec_read.specs.Fields.{FieldAt};

use codec_octets::{Got, Refusal, left_at, read_id, read_length, read_number, wide};
use codec_table::{
    LIST_LIMIT, MESSAGE_LIMIT, STRING_LIMIT, count_in, entry_of, form_in, kind_in, tail_in,
};

// The value of the bits left of an octet begun, at a bit.
fn bits_at(s: &[u8], at: usize) -> u32
    requires { at ≤ length s.now * 8 }
    ensures { (result ≡ bits_at s.now at) × (result < 256) }
{
    let left = left_at(at);
    if left == 0 {
        return 0;
    }
    let i = at / 8;
    wide(s[i]) % (1u32 << left)
}

// A code of some bits at a bit.
fn take_bits(s: &[u8], at: usize, width: u32) -> Result<Got, Refusal>
    requires { (at ≤ length s.now * 8) × (length s.now ≤ message_limit) × (width ≤ 8) }
    ensures { Bitwise s.now (after width (left_at at)) result (take_bits width (left_at at) (bits_at s.now at) (behind s.now at)) }
{
    let left = left_at(at);
    let bits = bits_at(s, at);
    let next = at + width as usize;
    if width <= left {
        return Ok(Got {
            value: bits >> (left - width),
            next,
        });
    }
    let i = (at + 7) / 8;
    if s.len() <= i {
        return Err(Refusal::BadEncoding);
    }
    let n = bits * 256 + wide(s[i]);
    Ok(Got {
        value: n >> (left + 8 - width),
        next,
    })
}

// A value up to its largest; a place counted in bits.
fn capped(g: Got, most: u32) -> Result<Got, Refusal>
    ensures { result ≡ capped_of most (Ok g) }
{
    if g.value <= most {
        Ok(g)
    } else {
        Err(Refusal::BadEncoding)
    }
}

fn in_bits(g: Got) -> Got
    requires { g.next ≤ message_limit }
    ensures { Ok result ≡ in_bits (Ok g) }
{
    Got {
        value: g.value,
        next: g.next * 8,
    }
}

// A code of some bits, up to its largest value.
#[tactic(auto, using(crate::proofs::ItemLaws::code_no, crate::proofs::ItemLaws::code_got))]
fn take_code(s: &[u8], at: usize, width: u32, most: u32) -> Result<Got, Refusal>
    requires { (at ≤ length s.now * 8) × (length s.now ≤ message_limit) × (width ≤ 8) }
    ensures { TakesField s.now at (code width most) result }
{
    let g = take_bits(s, at, width)?;
    capped(g, most)
}

// An id, on the next octet.
#[tactic(auto, using(crate::proofs::ItemLaws::item_pad, crate::proofs::ItemLaws::item_no, crate::proofs::ItemLaws::item_got))]
fn take_id(s: &[u8], at: usize, low: u16) -> Result<Got, Refusal>
    requires { (at ≤ length s.now * 8) × (length s.now ≤ message_limit) }
    ensures { TakesField s.now at (item (an_id low)) result }
{
    if bits_at(s, at) != 0 {
        return Err(Refusal::BadEncoding);
    }
    let g = read_id(s, (at + 7) / 8, low)?;
    Ok(in_bits(g))
}

// An integer from 0 up, on the next octet.
#[tactic(auto, using(crate::proofs::ItemLaws::item_pad, crate::proofs::ItemLaws::item_no, crate::proofs::ItemLaws::item_got))]
fn take_number(s: &[u8], at: usize) -> Result<Got, Refusal>
    requires { (at ≤ length s.now * 8) × (length s.now ≤ message_limit) }
    ensures { TakesField s.now at (item a_number) result }
{
    if bits_at(s, at) != 0 {
        return Err(Refusal::BadEncoding);
    }
    let g = read_number(s, (at + 7) / 8)?;
    Ok(in_bits(g))
}

// A field of a kind of the table of messages.
fn take_field(s: &[u8], at: usize, kind: u8) -> Result<Got, Refusal>
    requires { (at ≤ length s.now * 8) × (length s.now ≤ message_limit) }
    ensures { TakesField s.now at (field_of kind) result }
{
    match kind {
        0 => take_code(s, at, 4, 15),
        1 => take_code(s, at, 4, 13),
        2 => take_code(s, at, 3, 4),
        3 => take_code(s, at, 3, 7),
        4 => take_id(s, at, 0),
        5 => take_id(s, at, 1001),
        6 => take_id(s, at, 1),
        _ => take_number(s, at),
    }
}

// The fields read: their values, and the bit behind them.
#[derive(Clone, Copy)]
pub struct Fields {
    values: [u32; 4],
    at: usize,
}

// The first fields of a message, by its number and the line of the table that is looked up for it once.
fn take_fields(
    s: &[u8],
    from: usize,
    number: u32,
    line: u32,
    count: usize,
) -> Result<Fields, Refusal>
    requires { (from ≤ length s.now * 8) × (length s.now ≤ message_limit) × (count ≤ 4) × (line ≡ packed_at number) }
    ensures { TakesFields s.now from (fields_of number count) count result }
{
    let mut values = [0u32; 4];
    let mut at = from;
    for i in 0..count {
        let g = take_field(s, at, kind_in(line, i))?;
        values[i] = g.value;
        at = g.next;
    }
    Ok(Fields { values, at })
}

// What follows a message's fields: so many ids, which stand in the list lent; or a string, so many octets from start on.
#[derive(Clone, Copy)]
pub enum Items {
    Ids(usize),
    Octets { start: usize, count: usize },
}

impl Items {
    // How many ids or octets.
    pub fn count(self) -> usize
        ensures { result ≡ count_of self }
    {
        match self {
            Items::Ids(count) => count,
            Items::Octets { count, .. } => count,
        }
    }
}

// The items read, and the octet behind them.
#[derive(Clone, Copy)]
struct Taken {
    items: Items,
    next: usize,
}

// Some ids, stored; the cells behind the last are 0. That octets are missing is seen once for all of them: the loop has no test for it.
#[tactic(auto, using(crate::proofs::ListLaws::owed_none, crate::proofs::ListLaws::ids_few, crate::proofs::ListLaws::ids_over, crate::proofs::ListLaws::ids_all))]
fn read_ids(
    s: &[u8],
    from: usize,
    low: u16,
    count: usize,
    ids: &mut [u16; LIST_LIMIT],
) -> Result<Taken, Refusal>
    requires { (from ≤ length s.now) × (count ≤ list_limit) }
    ensures { ReadsItems s.now false true result ids.old ids.new (read_items (an_id low) count (drop from s.now)) }
{
    *ids = [0u16; LIST_LIMIT];
    let are_missing = s.len() - from < count * 2;
    if are_missing {
        return Err(Refusal::BadEncoding);
    }
    let mut at = from;
    for i in 0..count {
        let id = wide(s[at]) * 256 + wide(s[at + 1]) + low as u32;
        if 65535 < id {
            return Err(Refusal::BadEncoding);
        }
        ids[i] = (id % 65536) as u16;
        at += 2;
    }
    Ok(Taken {
        items: Items::Ids(count),
        next: at,
    })
}

// Some octets, where they stand.
#[tactic(auto, using(crate::proofs::ListLaws::octets_no, crate::proofs::ListLaws::octets_is))]
fn read_octets(s: &[u8], from: usize, count: usize) -> Result<Taken, Refusal>
    requires { (from ≤ length s.now) × (count < 65536) × (length s.now ≤ message_limit) }
    ensures { (ids : List ℕ) → ReadsItems s.now true false result ids ids (read_items an_octet count (drop from s.now)) }
{
    let next = from + count;
    if s.len() < next {
        return Err(Refusal::BadEncoding);
    }
    Ok(Taken {
        items: Items::Octets { start: from, count },
        next,
    })
}

// A list's items, of a kind of the table of messages, behind its length.
#[tactic(auto, using(crate::proofs::ListLaws::list_more, crate::proofs::ListLaws::list_more_ids, crate::proofs::ListLaws::list_octets, crate::proofs::ListLaws::list_channels, crate::proofs::ListLaws::list_users))]
fn read_list(
    s: &[u8],
    from: usize,
    kind: u8,
    n: u32,
    ids: &mut [u16; LIST_LIMIT],
) -> Result<Taken, Refusal>
    requires { (from ≤ length s.now) × (length s.now ≤ message_limit) × (kind ≡ 0 → ⊥) }
    ensures { ReadsItems s.now (eqb kind 3) (has_ids kind) result ids.old ids.new (listed kind n (drop from s.now)) }
{
    let count = n as usize;
    if kind == 3 {
        if STRING_LIMIT < count {
            return Err(Refusal::TooLong);
        }
        return read_octets(s, from, count);
    }
    let are_many = LIST_LIMIT < count;
    if are_many {
        return Err(Refusal::TooLong);
    }
    let low = if kind == 1 { 0 } else { 1001 };
    read_ids(s, from, low, count, ids)
}

// What follows the fields, by its kind in the table of messages.
#[tactic(auto, using(crate::proofs::ListLaws::tail_none, crate::proofs::ListLaws::tail_no, crate::proofs::ListLaws::tail_is))]
fn read_tail(s: &[u8], from: usize, kind: u8, ids: &mut [u16; LIST_LIMIT]) -> Result<Taken, Refusal>
    requires { (from ≤ length s.now) × (length s.now ≤ message_limit) }
    ensures { ReadsItems s.now (eqb kind 3) (has_ids kind) result ids.old ids.new (read_tail (tail_of kind) (drop from s.now)) }
{
    if kind == 0 {
        return Ok(Taken {
            items: Items::Ids(0),
            next: from,
        });
    }
    let length = read_length(s, from)?;
    read_list(s, length.next, kind, length.value, ids)
}

// What is said of a message beside the ids of its list: its number, how many values it has, these, with 0 behind them, and its items.
#[derive(Clone, Copy)]
pub struct Head {
    pub number: u32,
    pub have: usize,
    pub values: [u32; 4],
    pub items: Items,
}

// A message, with the ids of its list, and 0 behind them.
#[derive(Clone, Copy)]
pub struct Decoded {
    pub head: Head,
    pub ids: [u16; LIST_LIMIT],
}

// The fields of a message, from the bit at on, and what follows them, to its end.
fn decode_body(
    s: &[u8],
    at: usize,
    count: usize,
    number: u32,
    line: u32,
    ids: &mut [u16; LIST_LIMIT],
) -> Result<Head, Refusal>
    requires { (at ≤ length s.now * 8) × (length s.now ≤ message_limit) × (count ≤ 4) × (line ≡ packed_at number) }
    ensures { Reads s.now (body_at s.now at count number) ids.old ids.new result }
{
    let f = take_fields(s, at, number, line, count)?;
    let end = f.at;
    let is_clear = bits_at(s, end) == 0;
    if !is_clear {
        return Err(Refusal::BadEncoding);
    }
    let t = read_tail(s, (end + 7) / 8, tail_in(line), ids)?;
    let is_whole = t.next == s.len();
    if !is_whole {
        return Err(Refusal::BadEncoding);
    }
    let values = f.values;
    Ok(Head {
        number,
        have: count,
        values,
        items: t.items,
    })
}

// How many fields a message has beyond those that are always there, and the bit where its fields start; or the refusal of its number.
fn presence(s: &[u8], at: usize, number: u32, line: u32) -> Result<Got, Refusal>
    requires { (at ≤ length s.now * 8) × (length s.now ≤ message_limit) × (left_at at ≡ 2) × (line ≡ packed_at number) }
    ensures { GoesOn s.now at number result }
{
    let form = form_in(line);
    if 2 < form {
        return Err(Refusal::BadEncoding);
    }
    if form == 2 {
        return Err(Refusal::NotServed);
    }
    if form == 0 {
        return Ok(Got { value: 0, next: at });
    }
    take_code(s, at, 1, 1)
}

// A message, by its number.
fn decode_row(
    s: &[u8],
    at: usize,
    number: u32,
    ids: &mut [u16; LIST_LIMIT],
) -> Result<Head, Refusal>
    requires { (at ≤ length s.now * 8) × (length s.now ≤ message_limit) × (left_at at ≡ 2) }
    ensures { Reads s.now (row_at s.now at number) ids.old ids.new result }
{
    let line = entry_of(number);
    let count = count_in(line);
    let more = presence(s, at, number, line)?;
    decode_body(s, more.next, count + more.value as usize, number, line, ids)
}

// The message of these octets; where it has a list of ids, they are stored in the list lent.
pub fn read_into(s: &[u8], ids: &mut [u16; LIST_LIMIT]) -> Result<Head, Refusal>
    ensures { Reads s.now (decode_of s.now) ids.old ids.new result }
{
    if s.len() == 0 {
        return Err(Refusal::WrongLength);
    }
    if MESSAGE_LIMIT < s.len() {
        return Err(Refusal::WrongLength);
    }
    let number = take_code(s, 0, 6, 63)?;
    decode_row(s, number.next, number.value, ids)
}

// The message of these octets.
#[tactic(auto, using(crate::proofs::HeldLaws::not_decoded))]
pub fn decode(s: &[u8]) -> Result<Decoded, Refusal>
    ensures { outcome_of result ≡ decoded s.now (decode_of s.now) }
{
    let mut ids = [0u16; LIST_LIMIT];
    let head = read_into(s, &mut ids)?;
    Ok(Decoded { head, ids })
}

// A field of a kind of the table of messages at a bit, of any octets: 4 above 1,024 of them, 5 behind their end.
pub fn field_at(s: &[u8], at: usize, kind: u8) -> Result<Got, Refusal>
    ensures { FieldAt s.now at (field_of kind) result }
{
    if MESSAGE_LIMIT < s.len() {
        return Err(Refusal::WrongLength);
    }
    if s.len() * 8 < at {
        return Err(Refusal::BadEncoding);
    }
    take_field(s, at, kind)
}
