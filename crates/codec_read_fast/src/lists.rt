// The short way for messages with a list of ids: DUrq, CLrq, CArq and CErq. The ids are stored where the caller lends room for them.
ghost use Rattle.std.specs.Prelude.{◌≡◌, ◌+◌, ◌*◌, ◌/◌, ◌<◌, ◌≤◌, length, get_or, IfSome, OnSome};
ghost use Rattle.codec_table.specs.Limits.{list_limit};
ghost use Rattle.codec_read_fast.specs.Listed.{Listed, Counts, Stored, Heads};

use crate::id_at;
use codec_octets::wide;
use codec_table::LIST_LIMIT;

// The first octets of three of these messages: the number in the first 6 bits, and 2 bits that are 0.
const CLRQ: u8 = 16 * 4;

const CARQ: u8 = 21 * 4;

const CERQ: u8 = 23 * 4;

// The number of DUrq: in its first octet stand the first 2 bits of its reason.
const DURQ: u8 = 12;

// A message that is read: its number, the values before its list, 0 where it has none, and how many ids are stored.
#[derive(Clone, Copy)]
pub struct Listing {
    pub number: u32,
    pub first: u16,
    pub second: u16,
    pub count: usize,
}

// How many ids octet `at` counts, where they reach from there to the end and are not above the limit.
fn counted(s: &[u8], at: usize) -> Option<usize>
    requires { at ≤ 5 }
    ensures { IfSome result (Counts s.now at) }
{
    if s.len() <= at {
        return None;
    }
    let n = wide(s[at]) as usize;
    if s.len() != at + 1 + 2 * n {
        return None;
    }
    if LIST_LIMIT < n {
        return None;
    }
    Some(n)
}

// The ids in two octets each from octet `from` on are stored; none where one is above the largest id.
fn ids_at(
    s: &[u8],
    from: usize,
    low: u32,
    count: usize,
    listed: &mut [u16; LIST_LIMIT],
) -> Option<()>
    requires { (from + 2 * count ≤ length s.now) × (count ≤ list_limit) × (low ≤ 65536) }
    ensures { OnSome result (Stored s.now from low count listed.new) }
{
    for i in 0..count {
        listed[i] = id_at(s, from + 2 * i, low)?;
    }
    Some(())
}

// What stands before a list: the octet that counts its ids, the lowest id of their kind, the message's number and its values, 0 where it has none.
#[derive(Clone, Copy)]
struct Head {
    at: usize,
    low: u32,
    number: u32,
    first: u16,
    second: u16,
}

// DUrq: its reason lies in the last 2 bits of the first octet and the first of the next.
fn reason_head(s: &[u8]) -> Option<Head>
    requires { (1 < length s.now) × (get_or s.now 0 0 / 4 ≡ 12) }
    ensures { IfSome result (Heads s.now) }
{
    let o = wide(s[0]);
    let p = wide(s[1]);
    if p % 128 != 0 {
        return None;
    }
    let reason = o % 4 * 2 + p / 128;
    if 4 < reason {
        return None;
    }
    Some(Head {
        at: 2,
        low: 1001,
        number: 12,
        first: reason as u16,
        second: 0,
    })
}

// CArq and CErq: a user and a private channel.
fn ids_head(s: &[u8]) -> Option<Head>
    ensures { IfSome result (Heads s.now) }
{
    if s.len() < 6 {
        return None;
    }
    let o = s[0];
    match o {
        CARQ | CERQ => Some(Head {
            at: 5,
            low: 1001,
            number: wide(o) / 4,
            first: id_at(s, 1, 1001)?,
            second: id_at(s, 3, 1001)?,
        }),
        _ => None,
    }
}

// What stands before the list, where the message is one of those above or CLrq.
fn head_of(s: &[u8]) -> Option<Head>
    ensures { IfSome result (Heads s.now) }
{
    if s.len() < 3 {
        return None;
    }
    let o = s[0];
    if o == CLRQ {
        return Some(Head {
            at: 1,
            low: 0,
            number: 16,
            first: 0,
            second: 0,
        });
    }
    if o / 4 == DURQ {
        return reason_head(s);
    }
    ids_head(s)
}

// The message of these octets, where it is one of those above.
pub fn read_listing(s: &[u8], listed: &mut [u16; LIST_LIMIT]) -> Option<Listing>
    ensures { IfSome result (λ l. Listed s.now l listed.new) }
{
    let head = head_of(s)?;
    let count = counted(s, head.at)?;
    ids_at(s, head.at + 1, head.low, count, listed)?;
    Some(Listing {
        number: head.number,
        first: head.first,
        second: head.second,
        count,
    })
}
