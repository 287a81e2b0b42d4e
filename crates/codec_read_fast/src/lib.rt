// The short way: the messages of a few ids, which a conference sends most; those about tokens stand by themselves. What is declined here is no such
// message, and goes the long way.
#![tactic(auto)]

pub mod lists;
pub mod tokens;

ghost use Rattle.std.specs.Prelude.{◌≡◌, [], ◌∷◌, ◌+◌, ◌<◌, ◌≤◌, length, MatchOption};
ghost use Rattle.codec_table.specs.Answers.{outcome_of};
ghost use Rattle.codec_read.specs.Reading.{decode_of};
ghost use Rattle.codec_read.specs.Held.{decoded};
ghost use Rattle.codec_read_fast.specs.Shortly.{of_values, in_full, in_words, short_number, NoneRead, Shortly, IdAt, NoIdAt};

use codec_octets::{Refusal, wide};
use codec_read::{Decoded, Head, Items};
use codec_table::LIST_LIMIT;
use tokens::Wish;

// The first octets of these messages: the number in the first 6 bits, and 2 bits that are 0.
const AURQ: u8 = 10 * 4;

const CJRQ: u8 = 14 * 4;

const CCRQ: u8 = 17 * 4;

const CDRQ: u8 = 19 * 4;

// A message that is read: its number, and its values, 0 where it has none.
#[derive(Clone, Copy)]
pub struct Short {
    pub number: u32,
    pub first: u16,
    pub second: u16,
}

// The id in two octets from octet i on, above the lowest of its kind; none where that is above the largest id.
fn id_at(s: &[u8], i: usize, low: u32) -> Option<u16>
    requires { (i + 1 < length s.now) × (low ≤ 65536) }
    ensures { MatchOption result (NoIdAt s.now i low) (IdAt s.now i low) }
{
    u16::try_from(wide(s[i]) * 256 + wide(s[i + 1]) + low).ok()
}

// AUrq.
fn no_ids(s: &[u8]) -> Option<Short>
    requires { length s.now ≡ 1 }
    ensures { MatchOption result (NoneRead short_number s.now) (Shortly s.now) }
{
    if s[0] != AURQ {
        return None;
    }
    Some(Short {
        number: 10,
        first: 0,
        second: 0,
    })
}

// CCrq.
fn one_id(s: &[u8]) -> Option<Short>
    requires { length s.now ≡ 3 }
    ensures { MatchOption result (NoneRead short_number s.now) (Shortly s.now) }
{
    if s[0] != CCRQ {
        return None;
    }
    Some(Short {
        number: 17,
        first: id_at(s, 1, 1001)?,
        second: 0,
    })
}

// CJrq and CDrq: a user and a channel or a private channel.
fn channel_ids(s: &[u8]) -> Option<Short>
    requires { length s.now ≡ 5 }
    ensures { MatchOption result (NoneRead short_number s.now) (Shortly s.now) }
{
    match s[0] {
        CJRQ => Some(Short {
            number: 14,
            first: id_at(s, 1, 1001)?,
            second: id_at(s, 3, 0)?,
        }),
        CDRQ => Some(Short {
            number: 19,
            first: id_at(s, 1, 1001)?,
            second: id_at(s, 3, 1001)?,
        }),
        _ => None,
    }
}

// The message of these octets, where it is one of those above.
pub fn read_short(s: &[u8]) -> Option<Short>
    ensures { MatchOption result (NoneRead short_number s.now) (Shortly s.now) }
{
    match s.len() {
        5 => channel_ids(s),
        1 => no_ids(s),
        3 => one_id(s),
        _ => None,
    }
}

// A message of these values alone, with 0 in the other cells.
fn of_values(number: u32, a: u16, b: u16, c: u16) -> Decoded
    ensures { result ≡ of_values number (a ∷ b ∷ c ∷ 0 ∷ []) }
{
    let values = [a as u32, b as u32, c as u32, 0];
    let ids = [0u16; LIST_LIMIT];
    let head = Head {
        number,
        have: codec_table::count_of(number),
        values,
        items: Items::Ids(0),
    };
    Decoded { head, ids }
}

// What was read the short way, as the long way holds it.
fn in_full(q: Short) -> Decoded
    ensures { result ≡ in_full q }
{
    of_values(q.number, q.first, q.second, 0)
}

// The same of a request about a token: a TVrs has its result first.
fn in_words(w: Wish) -> Decoded
    ensures { result ≡ in_words w }
{
    if w.number == tokens::TVRS {
        return of_values(w.number, w.more, w.user, w.token);
    }
    of_values(w.number, w.user, w.token, w.more)
}

// The message of these octets: the short way first, else by the table of messages.
pub fn decode(s: &[u8]) -> Result<Decoded, Refusal>
    ensures { outcome_of result ≡ decoded s.now (decode_of s.now) }
{
    if let Some(w) = tokens::read_token(s) {
        return Ok(in_words(w));
    }
    if let Some(q) = read_short(s) {
        return Ok(in_full(q));
    }
    codec_read::decode(s)
}
