// The codec for a C program to time and compare: the ways of reading and of writing that the provider has, the short ones before the table of messages.
// What a function does not read or write goes by the next.
#![tactic(auto)]

use codec_read_fast::tokens::TVRS;

// The number of a message that no short way has read.
const NOT_READ: u32 = 64;

// A message by the short ways, as the provider tries them: its number; in the cells lent its values in the message's order, or, where it has a list of
// ids, the values before the list and how many ids, which go into the list lent. 64 where no short way reads it.
#[unsafe(no_mangle)]
pub extern "C" fn ladlestorm_test_read_fast(
    s: &[u8],
    values: &mut [u16; 3],
    list: &mut [u16; 64],
) -> u32 {
    if let Some(w) = codec_read_fast::tokens::read_token(s) {
        *values = in_order(w.number == TVRS, w.user, w.token, w.more);
        return w.number;
    }
    if let Some(q) = codec_read_fast::read_short(s) {
        *values = [q.first, q.second, 0];
        return q.number;
    }
    if let Some(l) = codec_read_fast::lists::read_listing(s, list) {
        *values = [l.first, l.second, (l.count % 65536) as u16];
        return l.number;
    }
    NOT_READ
}

// The values of a request about a token in the message's order: a TVrs has its result first.
fn in_order(result_first: bool, user: u16, token: u16, more: u16) -> [u16; 3] {
    if result_first {
        return [more, user, token];
    }
    [user, token, more]
}

// Any message, by the table of messages: how many ids it lists; in the cells lent its number, its values, and the refusal behind them.
#[unsafe(no_mangle)]
pub extern "C" fn ladlestorm_test_read_any(
    s: &[u8],
    values: &mut [u32; 6],
    list: &mut [u16; 64],
) -> u32 {
    match codec_read::read_into(s, list) {
        Ok(h) => {
            let read = h.values;
            *values = [h.number, read[0], read[1], read[2], read[3], 0];
            (h.items.count() % 65536) as u32
        }
        Err(refusal) => {
            *values = [0, 0, 0, 0, 0, u8::from(refusal) as u32];
            0
        }
    }
}

// A confirm of a token's request, the short way: how many octets; 0 where it is not written so.
#[unsafe(no_mangle)]
pub extern "C" fn ladlestorm_test_write_fast(
    out: &mut [u8],
    number: u32,
    res: u32,
    user: u32,
    token: u32,
    status: u32,
) -> u32 {
    let values = [res, user, token, status];
    let ids = [0u16; 0];
    let octets = [0u8; 0];
    if codec_write_fast::encode_short(number, &values, &ids, &octets, out) {
        return 7;
    }
    0
}

// The same by the table of messages: how many octets, or 64 and the refusal.
#[unsafe(no_mangle)]
pub extern "C" fn ladlestorm_test_write_any(
    out: &mut [u8],
    number: u32,
    res: u32,
    user: u32,
    token: u32,
    status: u32,
) -> u32 {
    let values = [res, user, token, status];
    let ids = [0u16; 0];
    let octets = [0u8; 0];
    match codec_write::encode(number, &values, &ids, &octets, out) {
        Ok(n) => (n % 64) as u32,
        Err(r) => 64 + u8::from(r) as u32,
    }
}
