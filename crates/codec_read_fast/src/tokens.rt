// The short way for requests about tokens: TGrq, TIrq, TVrq, TVrs, TPrq, TRrq and TTrq.
ghost use Rattle.std.specs.Prelude.{◌≡◌, ◌+◌, ◌<◌, length, MatchOption};
ghost use Rattle.codec_read_fast.specs.Shortly.{token_number, NoneRead, Wishes, NoWish, Wished};

use crate::id_at;
use codec_octets::wide;

// The first octets of these messages: the number in the first 6 bits, and 2 bits that are 0.
const TGRQ: u8 = 29 * 4;

const TIRQ: u8 = 31 * 4;

const TVRQ: u8 = 33 * 4;

const TPRQ: u8 = 37 * 4;

const TRRQ: u8 = 39 * 4;

const TTRQ: u8 = 41 * 4;

// The number of TVrs: in its first octet stand the first 2 bits of its result.
pub const TVRS: u32 = 35;

// A request that is read: its number, the user, the token, and the recipient of a TVrq or the result of a TVrs, else 0.
#[derive(Clone, Copy)]
pub struct Wish {
    pub number: u32,
    pub user: u16,
    pub token: u16,
    pub more: u16,
}

// A request by its number: the user and the token from octet `at` on, and what it carries besides.
fn wish_at(s: &[u8], at: usize, number: u32, more: u16) -> Option<Wish>
    requires { at + 3 < length s.now }
    ensures { MatchOption result (NoWish s.now at) (Wished s.now at number more) }
{
    Some(Wish {
        number,
        user: id_at(s, at, 1001)?,
        token: id_at(s, at + 2, 1)?,
        more,
    })
}

// TGrq, TIrq, TPrq, TRrq and TTrq: a user and a token.
fn token_ids(s: &[u8]) -> Option<Wish>
    requires { length s.now ≡ 5 }
    ensures { MatchOption result (NoneRead token_number s.now) (Wishes s.now) }
{
    let o = s[0];
    match o {
        TGRQ | TIRQ | TPRQ | TRRQ | TTRQ => wish_at(s, 1, wide(o) / 4, 0),
        _ => None,
    }
}

// TVrq: a user, a token and the recipient.
fn token_offer(s: &[u8]) -> Option<Wish>
    requires { length s.now ≡ 7 }
    ensures { MatchOption result (NoneRead token_number s.now) (Wishes s.now) }
{
    if s[0] != TVRQ {
        return None;
    }
    let recipient = id_at(s, 5, 1001)?;
    wish_at(s, 1, 33, recipient)
}

// TVrs: its result lies in the last 2 bits of the first octet and the first 2 of the next.
fn token_answer(s: &[u8]) -> Option<Wish>
    requires { length s.now ≡ 6 }
    ensures { MatchOption result (NoneRead token_number s.now) (Wishes s.now) }
{
    let o = wide(s[0]);
    let p = wide(s[1]);
    if o / 4 != TVRS {
        return None;
    }
    if p % 64 != 0 {
        return None;
    }
    wish_at(s, 2, TVRS, (o % 4 * 4 + p / 64) as u16)
}

// The request of these octets, where it is one of those above.
pub fn read_token(s: &[u8]) -> Option<Wish>
    ensures { MatchOption result (NoneRead token_number s.now) (Wishes s.now) }
{
    if s.len() < 5 {
        return None;
    }
    if s[0] < TGRQ {
        return None;
    }
    match s.len() {
        5 => token_ids(s),
        7 => token_offer(s),
        6 => token_answer(s),
        _ => None,
    }
}
