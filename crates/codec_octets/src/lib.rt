// Numbers, lengths and ids that start on an octet (X.691, aligned basic variant), and the bits left of an octet begun.
#![tactic(auto)]

mod refusal;

ghost use Rattle.std.specs.Prelude.{◌≡◌, ◌+◌, ◌*◌, ◌-◌, ◌<◌, ◌≤◌, length, drop};
ghost use Rattle.codec_octets.specs.Octets.{read_length, read_item, an_id, a_number, fewest, counted, size};
ghost use Rattle.codec_octets.specs.Places.{left_at, Octetwise};

pub use refusal::Refusal;

// What is read: a value, and the place behind it.
#[derive(Clone, Copy)]
pub struct Got {
    pub value: u32,
    pub next: usize,
}

// An octet as a number.
pub fn wide(x: u8) -> u32
    ensures { (result ≡ x) × (result < 256) }
{
    x as u32
}

// A length that starts at octet i.
pub fn read_length(s: &[u8], i: usize) -> Result<Got, Refusal>
    ensures { Octetwise s.now result (read_length (drop i s.now)) }
{
    if s.len() <= i {
        return Err(Refusal::BadEncoding);
    }
    let o = wide(s[i]);
    if o < 128 {
        return Ok(Got {
            value: o,
            next: i + 1,
        });
    }
    if 192 <= o {
        return Err(Refusal::TooLong);
    }
    let j = i + 1;
    if s.len() <= j {
        return Err(Refusal::BadEncoding);
    }
    let n = (o - 128) * 256 + wide(s[j]);
    if n < 128 {
        Err(Refusal::BadEncoding)
    } else {
        Ok(Got {
            value: n,
            next: j + 1,
        })
    }
}

// An id, in two octets from octet i on, above the lowest of its kind.
pub fn read_id(s: &[u8], i: usize, low: u16) -> Result<Got, Refusal>
    ensures { Octetwise s.now result (read_item (an_id low) (drop i s.now)) }
{
    if s.len() <= i {
        return Err(Refusal::BadEncoding);
    }
    let j = i + 1;
    if s.len() <= j {
        return Err(Refusal::BadEncoding);
    }
    let n = wide(s[i]) * 256 + wide(s[j]) + low as u32;
    if 65535 < n {
        Err(Refusal::BadEncoding)
    } else {
        Ok(Got {
            value: n,
            next: j + 1,
        })
    }
}

// How many bits of the octet begun are left at a bit.
pub fn left_at(at: usize) -> u32
    ensures { (result ≡ left_at at) × (result < 8) }
{
    ((8 - at % 8) % 8) as u32
}

// The number in k octets, most significant first, and no more of them than it takes.
fn fewest_octets(s: &[u8], i: usize, k: usize) -> Result<Got, Refusal>
    requires { (i ≤ length s.now) × (0 < k) × (k ≤ 4) }
    ensures { Octetwise s.now result (fewest k (drop i s.now)) }
{
    if s.len() - i < k {
        return Err(Refusal::BadEncoding);
    }
    let octets = &s[i..i + k];
    let mut v: u32 = 0;
    for o in octets {
        v = v * 256 + wide(*o);
    }
    if octets_of(v) == k {
        Ok(Got {
            value: v,
            next: i + k,
        })
    } else {
        Err(Refusal::BadEncoding)
    }
}

// How many octets a number takes.
pub fn octets_of(v: u32) -> usize
    ensures { (result ≡ size v) × (result ≤ 4) }
{
    if v < 256 {
        1
    } else if v < 65536 {
        2
    } else if v < 16777216 {
        3
    } else {
        4
    }
}

// A number in k octets, where k is what its length says.
fn read_counted(s: &[u8], i: usize, k: u32) -> Result<Got, Refusal>
    requires { i ≤ length s.now }
    ensures { Octetwise s.now result (counted k (drop i s.now)) }
{
    if k == 0 {
        return Err(Refusal::BadEncoding);
    }
    if 4 < k {
        return Err(Refusal::TooLong);
    }
    fewest_octets(s, i, k as usize)
}

// An integer from 0 up, from octet i on: its length, and the fewest octets.
pub fn read_number(s: &[u8], i: usize) -> Result<Got, Refusal>
    ensures { Octetwise s.now result (read_item a_number (drop i s.now)) }
{
    let length = read_length(s, i)?;
    read_counted(s, length.next, length.value)
}
