// The writer: the octets of a message, into the room lent, or a refusal with the room untouched.
#![tactic(auto)]

ghost use Rattle.std.specs.Prelude.{◌≡◌, ◌+◌, ◌*◌, ◌<◌, ◌≤◌, ◌^◌, true, length, take, ◌++◌, ltb};
ghost use Rattle.codec_octets.specs.Octets.{an_id, a_number, octets_of, length_octets, write_item, fits_item, fits_tail, write_tail};
ghost use Rattle.codec_table.specs.Limits.{message_limit};
ghost use Rattle.codec_table.specs.Columns.{packed_at, field_of, fields_of, tail_of};
ghost use Rattle.codec_table.specs.Codec.{fits_fields, bit, ok};
ghost use Rattle.codec_octets.specs.Places.{Puts, Clear};
ghost use Rattle.codec_size.specs.Sizes.{fields_end, items_for, given, extent, encode_of, item_of};
ghost use Rattle.codec_write.specs.Writing.{Lays, MayPut, PutsField, PutsFields, PutsHead, Encodes};

use codec_octets::{Refusal, left_at, octets_of};
use codec_size::{item_at, items_len, measure};
use codec_table::{count_in, form_in, kind_in, tail_in};

// A code of some bits, written behind the bit at. What is left of the octet begun is 0.
fn put_bits(s: &mut [u8], at: usize, width: u32, v: u32)
    requires { (at + width ≤ length s.old * 8) × (length s.old ≤ message_limit) × (width ≤ 8) × (v < 256) × (v < 2 ^ width) × Clear s.old at }
    ensures { Puts s.old at width v s.new }
{
    let left = left_at(at);
    let i = at / 8;
    if width <= left {
        if 0 < left {
            let n = v << (left - width);
            s[i] = s[i] + (n % 256) as u8;
        }
    } else {
        let n = v << (left + 8 - width);
        if 0 < left {
            s[i] = s[i] + (n / 256 % 256) as u8;
            s[i + 1] = (n % 256) as u8;
        } else {
            s[i] = (n % 256) as u8;
        }
    }
}

// A number in k octets, the most significant first, from octet i on. A loop, and no copy_from_slice: that would call memcpy, and the codec for C calls nothing.
fn put_octets(s: &mut [u8], i: usize, k: usize, v: u32) -> usize
    requires { (i + k ≤ length s.old) × (k ≤ 4) × (v < 256 ^ k) }
    ensures { Lays s.old i (octets_of k v) s.new result }
{
    let octets = v.to_be_bytes();
    let mut at = i;
    for j in 0..4 {
        if 4 <= j + k {
            s[at] = octets[j];
            at += 1;
        }
    }
    at
}

// A length, an id above the lowest of its kind, an integer with its length: from octet i on, to the octet behind.
fn put_length(s: &mut [u8], i: usize, n: usize) -> usize
    requires { (i + length (length_octets n) ≤ length s.old) × (n < 16384) }
    ensures { Lays s.old i (length_octets n) s.new result }
{
    if n < 128 {
        put_octets(s, i, 1, n as u32)
    } else {
        put_octets(s, i, 2, n as u32 + 32768)
    }
}

fn put_id(s: &mut [u8], i: usize, low: u32, v: u32) -> usize
    requires { (i + 2 ≤ length s.old) × (low ≤ v) × (v ≤ 65535) }
    ensures { Lays s.old i (write_item (an_id low) v) s.new result }
{
    put_octets(s, i, 2, v - low)
}

fn put_number(s: &mut [u8], i: usize, v: u32) -> usize
    requires { i + length (write_item a_number v) ≤ length s.old }
    ensures { Lays s.old i (write_item a_number v) s.new result }
{
    let k = octets_of(v);
    let j = put_length(s, i, k);
    put_octets(s, j, k, v)
}

// A code, and a field of any kind, written at a bit, to the bit behind.
fn put_code(s: &mut [u8], at: usize, width: u32, v: u32) -> usize
    requires { (at + width ≤ length s.old * 8) × (length s.old ≤ message_limit) × (width ≤ 8) × (v < 2 ^ width) × Clear s.old at }
    ensures { Puts s.old at width v s.new × (result ≡ at + width) }
{
    put_bits(s, at, width, v);
    at + width as usize
}

#[tactic(auto, using(crate::proofs::FieldLaws::code_puts, crate::proofs::FieldLaws::item_puts, crate::proofs::FieldLaws::code_asks, crate::proofs::FieldLaws::id_asks, crate::proofs::FieldLaws::number_asks, crate::proofs::FieldLaws::field_near, crate::proofs::LayLaws::lays_near, codec_table::proofs::ColumnLaws::kind_rest, codec_table::proofs::ColumnLaws::none_of), unfolding(codec_table::specs::Columns::field_of))]
fn put_field(s: &mut [u8], at: usize, kind: u8, v: u32) -> usize
    requires { MayPut s.old at (field_of kind) v }
    ensures { PutsField s.old at (field_of kind) v s.new result }
{
    match kind {
        0 => put_code(s, at, 4, v),
        1 => put_code(s, at, 4, v),
        2 => put_code(s, at, 3, v),
        3 => put_code(s, at, 3, v),
        4 => put_id(s, (at + 7) / 8, 0, v) * 8,
        5 => put_id(s, (at + 7) / 8, 1001, v) * 8,
        6 => put_id(s, (at + 7) / 8, 1, v) * 8,
        _ => put_number(s, (at + 7) / 8, v) * 8,
    }
}

// The fields of a message, written up to an octet.
fn put_fields(s: &mut [u8], from: usize, number: u32, line: u32, values: &[u32]) -> usize
    requires { (line ≡ packed_at number) × (length values.now ≤ 4) × (length s.old ≤ message_limit) × Clear s.old from × (fits_fields (fields_of number (length values.now)) values.now ≡ true) × (fields_end (fields_of number (length values.now)) values.now from ≤ length s.old * 8) }
    ensures { PutsFields s.old from (fields_of number (length values.now)) values.now s.new result }
{
    let mut at = from;
    for (i, v) in values.iter().enumerate() {
        at = put_field(s, at, kind_in(line, i), *v);
    }
    (at + 7) / 8
}

// An item of a list, written.
#[tactic(auto, using(crate::proofs::LayLaws::id_fits, crate::proofs::LayLaws::octet_lays), unfolding(codec_size::specs::Sizes::item_of))]
fn put_item(s: &mut [u8], i: usize, kind: u8, v: u32) -> usize
    requires { (fits_item (item_of kind) v ≡ true) × (i + length (write_item (item_of kind) v) ≤ length s.old) }
    ensures { Lays s.old i (write_item (item_of kind) v) s.new result }
{
    match kind {
        3 => put_octets(s, i, 1, v),
        1 => put_id(s, i, 0, v),
        _ => put_id(s, i, 1001, v),
    }
}

// What follows the fields, written to the end of the octets lent.
fn put_tail(s: &mut [u8], from: usize, kind: u8, ids: &[u16], octets: &[u8])
    requires { (fits_tail (tail_of kind) (items_for kind ids.now octets.now) ≡ true) × (from + length (write_tail (tail_of kind) (items_for kind ids.now octets.now)) ≡ length s.old) }
    ensures { s.new ≡ take from s.old ++ write_tail (tail_of kind) (items_for kind ids.now octets.now) }
{
    if kind == 0 {
        return;
    }
    let n = items_len(kind, ids, octets);
    let mut at = put_length(s, from, n);
    for i in 0..n {
        at = put_item(s, at, kind, item_at(kind, ids, octets, i));
    }
}

// The bit that says whether the OPTIONAL field is there; the number and that bit, written.
fn present_of(count: usize, have: usize) -> u32
    ensures { (result ≡ bit (ltb count have)) × (result < 2) }
{
    u32::from(count < have)
}

fn put_head(s: &mut [u8], number: u32, form: usize, present: u32) -> usize
    requires { (number < 64) × (form ≤ 1) × (present < 2) × (0 < length s.old) × (length s.old ≤ message_limit) }
    ensures { PutsHead number form present s.old s.new result }
{
    put_bits(s, 0, 6, number);
    if form == 0 {
        return 6;
    }
    put_bits(s, 6, 1, present);
    7
}

// A message, into just the octets that it takes.
fn put_message(number: u32, line: u32, values: &[u32], ids: &[u16], octets: &[u8], out: &mut [u8])
    requires { (line ≡ packed_at number) × (extent (encode_of (given number values.now ids.now octets.now)) ≡ ok (length out.old)) }
    ensures { encode_of (given number values.now ids.now octets.now) ≡ ok out.new }
{
    let form = form_in(line) as usize;
    let present = present_of(count_in(line), values.len());
    let at = put_head(out, number, form, present);
    let next = put_fields(out, at, number, line, values);
    put_tail(out, next, tail_in(line), ids, octets);
}

// The octets of a message, at the start of the room lent: how many; or a refusal, with the room untouched.
pub fn encode(
    number: u32,
    values: &[u32],
    ids: &[u16],
    octets: &[u8],
    out: &mut [u8],
) -> Result<usize, Refusal>
    ensures { Encodes (given number values.now ids.now octets.now) out.old result out.new }
{
    let m = measure(number, values, ids, octets);
    let n = m.size?;
    if out.len() < n {
        return Err(Refusal::NoRoom);
    }
    put_message(number, m.line, values, ids, octets, &mut out[..n]);
    Ok(n)
}
