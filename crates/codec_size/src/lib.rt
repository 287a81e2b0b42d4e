// What a message takes: its fields and what follows them judged and measured, before anything is written.
#![tactic(auto)]

ghost use Rattle.std.specs.Prelude.{◌≡◌, ◌+◌, ◌≤◌, ◌<◌, length, get_or};
ghost use Rattle.codec_octets.specs.Octets.{an_id, a_number, length_octets, fits_item};
ghost use Rattle.codec_table.specs.Messages.{code, item};
ghost use Rattle.codec_table.specs.Columns.{packed_at, field_of, fields_of, tail_of, tail_at};
ghost use Rattle.codec_table.specs.Answers.{outcome_of};
ghost use Rattle.codec_size.specs.Sizes.{Below, field_upto, fields_upto, tail_upto, body_upto, items_for, given, extent, encode_of, item_of, limit_of, width_of};

use codec_octets::{Refusal, octets_of, wide};
use codec_table::{
    LIST_LIMIT, MESSAGE_LIMIT, STRING_LIMIT, count_in, entry_of, form_in, kind_in, tail_in,
};

// Whether a value is an id above the lowest of its kind.
fn fits_id(low: u32, v: u32) -> bool
    ensures { result ≡ fits_item (an_id low) v }
{
    low <= v && v <= 65535
}

// The bit behind a field that starts at a bit, by its kind in the table of messages; or TooLong where its value is out of range.
#[tactic(auto, unfolding(crate::specs::Sizes::field_upto))]
fn code_end(at: usize, width: usize, most: u32, v: u32) -> Result<usize, Refusal>
    requires { (at ≤ 1000) × (width ≤ 8) }
    ensures { (outcome_of result ≡ field_upto (code width most) v at) × Below (at + 48) result }
{
    if v <= most {
        Ok(at + width)
    } else {
        Err(Refusal::TooLong)
    }
}

#[tactic(auto, unfolding(crate::specs::Sizes::field_upto))]
fn id_end(at: usize, low: u32, v: u32) -> Result<usize, Refusal>
    requires { at ≤ 1000 }
    ensures { (outcome_of result ≡ field_upto (item (an_id low)) v at) × Below (at + 48) result }
{
    if fits_id(low, v) {
        Ok(((at + 7) / 8 + 2) * 8)
    } else {
        Err(Refusal::TooLong)
    }
}

fn number_end(at: usize, v: u32) -> Result<usize, Refusal>
    requires { at ≤ 1000 }
    ensures { (outcome_of result ≡ field_upto (item a_number) v at) × Below (at + 48) result }
{
    let k = octets_of(v);
    Ok(((at + 7) / 8 + (1 + k)) * 8)
}

#[tactic(auto, using(codec_table::proofs::ColumnLaws::kind_rest, codec_table::proofs::ColumnLaws::none_of), unfolding(codec_table::specs::Columns::field_of))]
fn field_end(kind: u8, v: u32, at: usize) -> Result<usize, Refusal>
    requires { at ≤ 1000 }
    ensures { (outcome_of result ≡ field_upto (field_of kind) v at) × Below (at + 48) result }
{
    match kind {
        0 => code_end(at, 4, 15, v),
        1 => code_end(at, 4, 13, v),
        2 => code_end(at, 3, 4, v),
        3 => code_end(at, 3, 7, v),
        4 => id_end(at, 0, v),
        5 => id_end(at, 1001, v),
        6 => id_end(at, 1, v),
        _ => number_end(at, v),
    }
}

// The bit behind the fields of a message, by its number and the line of the table that is looked up for it once; or TooLong.
fn fields_end(number: u32, line: u32, from: usize, values: &[u32]) -> Result<usize, Refusal>
    requires { (from ≤ 8) × (length values.now ≤ 4) × (line ≡ packed_at number) }
    ensures { (outcome_of result ≡ fields_upto (fields_of number (length values.now)) values.now from) × Below 200 result }
{
    let mut at = from;
    for (i, v) in values.iter().enumerate() {
        at = field_end(kind_in(line, i), *v, at)?;
    }
    Ok(at)
}

// What follows the fields, by its kind in the table of messages: octets for a string, else ids.
pub fn items_len(kind: u8, ids: &[u16], octets: &[u8]) -> usize
    ensures { result ≡ length (items_for kind ids.now octets.now) }
{
    if kind == 3 { octets.len() } else { ids.len() }
}

// An item of it, or 0 behind the last.
pub fn item_at(kind: u8, ids: &[u16], octets: &[u8], i: usize) -> u32
    ensures { result ≡ get_or (items_for kind ids.now octets.now) i 0 }
{
    if items_len(kind, ids, octets) <= i {
        return 0;
    }
    if kind == 3 {
        wide(octets[i])
    } else {
        ids[i] as u32
    }
}

// An item of a list: whether it fits, how many there may be, how many octets each takes; and how many its length takes.
#[tactic(auto, unfolding(crate::specs::Sizes::item_of))]
fn fits_item(kind: u8, v: u32) -> bool
    ensures { result ≡ fits_item (item_of kind) v }
{
    match kind {
        3 => v < 256,
        1 => fits_id(0, v),
        _ => fits_id(1001, v),
    }
}

#[tactic(auto, unfolding(crate::specs::Sizes::limit_of))]
fn limit_of(kind: u8) -> usize
    ensures { (result ≡ limit_of kind) × (result < 16384) }
{
    if kind == 3 { STRING_LIMIT } else { LIST_LIMIT }
}

#[tactic(auto, unfolding(crate::specs::Sizes::width_of))]
fn item_size(kind: u8) -> usize
    ensures { (result ≡ width_of kind) × (result ≤ 2) }
{
    if kind == 3 { 1 } else { 2 }
}

fn length_size(n: usize) -> usize
    ensures { (result ≡ length (length_octets n)) × (result ≤ 2) }
{
    if n < 128 { 1 } else { 2 }
}

// How many octets what follows the fields takes; or TooLong; or WrongLength for a string beyond any message.
fn tail_size(kind: u8, ids: &[u16], octets: &[u8]) -> Result<usize, Refusal>
    ensures { (outcome_of result ≡ tail_upto (tail_of kind) (items_for kind ids.now octets.now)) × Below 40000 result }
{
    let n = items_len(kind, ids, octets);
    if kind == 0 {
        if n == 0 {
            return Ok(0);
        }
        return Err(Refusal::TooLong);
    }
    if limit_of(kind) < n {
        let is_string = kind == 3;
        if is_string {
            return Err(Refusal::WrongLength);
        }
        return Err(Refusal::TooLong);
    }
    for i in 0..n {
        if !fits_item(kind, item_at(kind, ids, octets, i)) {
            return Err(Refusal::TooLong);
        }
    }
    Ok(length_size(n) + n * item_size(kind))
}

// How many octets a message takes by its fields and what follows them; or TooLong; or WrongLength above the limit.
fn body_size(
    number: u32,
    line: u32,
    from: usize,
    values: &[u32],
    ids: &[u16],
    octets: &[u8],
) -> Result<usize, Refusal>
    requires { (from ≤ 8) × (length values.now ≤ 4) × (line ≡ packed_at number) }
    ensures { outcome_of result ≡ body_upto from (fields_of number (length values.now)) (tail_of (tail_at number)) values.now (items_for (tail_at number) ids.now octets.now) }
{
    let at = fields_end(number, line, from, values)?;
    let k = tail_size(tail_in(line), ids, octets)?;
    let size = (at + 7) / 8 + k;
    let fits = size <= MESSAGE_LIMIT;
    if fits {
        Ok(size)
    } else {
        Err(Refusal::WrongLength)
    }
}

// How many octets a message takes, or its refusal.
fn message_size(
    number: u32,
    line: u32,
    values: &[u32],
    ids: &[u16],
    octets: &[u8],
) -> Result<usize, Refusal>
    requires { line ≡ packed_at number }
    ensures { outcome_of result ≡ extent (encode_of (given number values.now ids.now octets.now)) }
{
    let form = form_in(line) as usize;
    if 1 < form {
        return Err(Refusal::NotServed);
    }
    let count = count_in(line);
    if values.len() < count {
        return Err(Refusal::TooLong);
    }
    if count + form < values.len() {
        return Err(Refusal::TooLong);
    }
    body_size(number, line, 6 + form, values, ids, octets)
}

// What a message takes, and the line of the table by which it is written: looked up once, for both.
#[derive(Clone, Copy)]
pub struct Measured {
    pub line: u32,
    pub size: Result<usize, Refusal>,
}

pub fn measure(number: u32, values: &[u32], ids: &[u16], octets: &[u8]) -> Measured
    ensures { (result.line ≡ packed_at number) × (outcome_of result.size ≡ extent (encode_of (given number values.now ids.now octets.now))) }
{
    let line = entry_of(number);
    let size = message_size(number, line, values, ids, octets);
    Measured { line, size }
}
