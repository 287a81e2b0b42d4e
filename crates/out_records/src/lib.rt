// Records into an answer's room. A put counts always and writes where there is room: so a run over a room of no octets tells the size.
#![tactic(auto)]

pub mod lists;

ghost use Rattle.std.specs.Prelude.{◌≡◌, ℕ, ◌+◌, ◌-◌, ◌≤◌, ◌<◌, length, set};
ghost use Rattle.codec_table.specs.Limits.{message_limit};
ghost use Rattle.out_records.specs.Records.{two, record_of};
ghost use Rattle.out_records.specs.Out.{Puts, allowed as allowed_at, guarded, each_two, told_to, told};

use codec_table::MESSAGE_LIMIT;

// How much of the room records are put into at first, where `most` octets are enough for any of them: all of a long one; nothing of a short one.
pub fn tried(room: usize, most: usize) -> usize
    ensures { (result ≤ room) × (room < most → result ≡ 0) × (most ≤ room → result ≡ room) }
{
    if room < most { 0 } else { room }
}

// An octet, where there is room for it.
fn put(s: &mut [u8], at: usize, b: u8)
    ensures { s.new ≡ set s.old at b }
{
    if at < s.len() {
        s[at] = b;
    }
}

// Octets one behind the other.
fn lay(s: &mut [u8], at: usize, os: &[u8]) -> usize
    requires { (at ≤ 100000) × (length os.now ≤ message_limit) }
    ensures { Puts s.old at os.now s.new result }
{
    for (i, b) in os.iter().enumerate() {
        put(s, at + i, *b);
    }
    at + os.len()
}

// So many octets, or ids, may be put at this place.
#[tactic(auto, unfolding(crate::specs::Out::allowed))]
fn allowed(at: usize, count: usize) -> bool
    ensures { result ≡ allowed_at at count }
{
    at <= 65535 && count <= MESSAGE_LIMIT
}

pub fn put_all(s: &mut [u8], at: usize, os: &[u8]) -> usize
    ensures { Puts s.old at (guarded at os.now os.now) s.new result }
{
    if allowed(at, os.len()) {
        return lay(s, at, os);
    }
    at
}

pub fn put_two(s: &mut [u8], at: usize, n: u16) -> usize
    ensures { Puts s.old at (guarded at (two n) (two n)) s.new result }
{
    put_all(s, at, &n.to_be_bytes())
}

// The two octets of an id: the id less the lowest of its kind, the upper octet first.
pub fn id_octets(id: u16, low: u16) -> [u8; 2]
    ensures { result ≡ two (id - low) }
{
    id.saturating_sub(low).to_be_bytes()
}

// The ids of a list on two octets each.
fn lay_ids(s: &mut [u8], from: usize, low: u16, ids: &[u16]) -> usize
    requires { (from ≤ 65535) × (length ids.now ≤ message_limit) }
    ensures { Puts s.old from (each_two low ids.now) s.new result }
{
    let mut at = from;
    for id in ids {
        at = lay(s, at, &id_octets(*id, low));
    }
    at
}

pub fn put_ids(s: &mut [u8], at: usize, low: u16, ids: &[u16]) -> usize
    ensures { Puts s.old at (guarded at ids.now (each_two low ids.now)) s.new result }
{
    if allowed(at, ids.len()) {
        return lay_ids(s, at, low, ids);
    }
    at
}

// How many octets the record of a message takes, to any connection: none where it may not be put.
pub fn record_size(m: &[u8]) -> usize
    ensures { (q : ℕ) → result ≡ length (guarded 0 m.now (record_of m.now q)) }
{
    if allowed(0, m.len()) {
        return m.len() + 4;
    }
    0
}

// A record at the start of the room: what follows in two octets, version 1, connection, message.
pub fn put_record(s: &mut [u8], q: u8, m: &[u8]) -> usize
    ensures { Puts s.old 0 (guarded 0 m.now (record_of m.now q)) s.new result }
{
    if allowed(0, m.len()) {
        let n = m.len() + 2;
        let size = (n as u16).to_be_bytes();
        let head = [size[0], size[1], 1, q];
        let at = lay(s, 0, &head);
        return lay(s, at, m);
    }
    0
}

// The record of a message of three octets, for which there is room: its seven octets are stored together.
fn lay_three(out: &mut [u8], at: usize, q: u8, m: &[u8])
    requires { (length m.now ≡ 3) × (at + 7 ≤ length out.old) }
    ensures { Puts out.old at (record_of m.now q) out.new (at + 7) }
{
    out[at] = 0;
    out[at + 1] = 5;
    out[at + 2] = 1;
    out[at + 3] = q;
    out[at + 4] = m[0];
    out[at + 5] = m[1];
    out[at + 6] = m[2];
}

// A record into the part of the room behind a place, which may lie behind its end. A CDin, of which there may be many, has three octets.
fn lay_record(out: &mut [u8], at: usize, q: u8, m: &[u8]) -> usize
    requires { (at ≤ 100000) × (length m.now ≤ message_limit) }
    ensures { Puts out.old at (record_of m.now q) out.new result }
{
    if m.len() == 3 {
        let end = at + 7;
        if end <= out.len() {
            lay_three(out, at, q, m);
            return end;
        }
    }
    let from = usize::min(at, out.len());
    at + put_record(&mut out[from..], q, m)
}

pub fn send(out: &mut [u8], at: usize, q: u8, m: &[u8]) -> usize
    ensures { Puts out.old at (guarded at m.now (record_of m.now q)) out.new result }
{
    if allowed(at, m.len()) {
        return lay_record(out, at, q, m);
    }
    at
}

// A message to each connection of a mask, ascending.
fn tell_all(out: &mut [u8], from: usize, mask: u16, m: &[u8]) -> usize
    requires { (from ≤ 65535) × (length m.now ≤ message_limit) }
    ensures { Puts out.old from (told mask m.now) out.new result }
{
    let all = mask as u64;
    let mut at = from;
    let mut q = cols_masks::next_in(all, 0);
    while q < 16 {
        at = lay_record(out, at, q as u8, m);
        q = cols_masks::next_in(all, q + 1);
    }
    at
}

// How many octets the records of a message to each connection of a mask take.
pub fn told_size(mask: u16, m: &[u8]) -> usize
    ensures { result ≡ length (guarded 0 m.now (told mask m.now)) }
{
    let count = cols_masks::count_links(mask) as usize;
    count * record_size(m)
}

pub fn tell(out: &mut [u8], at: usize, mask: u16, m: &[u8]) -> usize
    ensures { Puts out.old at (guarded at m.now (told mask m.now)) out.new result }
{
    if allowed(at, m.len()) {
        return tell_all(out, at, mask, m);
    }
    at
}
