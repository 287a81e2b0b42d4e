// Numbers of a frame, big-endian.
ghost use Rattle.std.specs.Prelude.{◌≡◌, ◌<◌, length};

// The octet at an index; 0 where it is missing.
pub fn octet(s: &[u8], at: usize) -> u32
    ensures { result < 256 }
{
    if s.len() <= at {
        return 0;
    }
    u32::from(s[at])
}

// The number of two octets at an index, of which each that is missing is 0.
pub fn pair(s: &[u8], at: usize) -> u32
    ensures { result < 65536 }
{
    if s.len() <= at {
        return 0;
    }
    octet(s, at) * 256 + octet(s, at + 1)
}

// The number of four octets at an index; 0 where they are missing.
pub fn quad(s: &[u8], at: usize) -> u32 {
    if s.len() < 4 {
        return 0;
    }
    if s.len() - 4 < at {
        return 0;
    }
    pair(s, at) * 65536 + pair(s, at + 2)
}

// The values that a message to be written may have, four octets each, from its sixth octet on.
pub fn values_of(s: &[u8]) -> [u32; 8]
    ensures { 8 ≡ length result }
{
    [
        quad(s, 5),
        quad(s, 9),
        quad(s, 13),
        quad(s, 17),
        quad(s, 21),
        quad(s, 25),
        quad(s, 29),
        quad(s, 33),
    ]
}

// The ids that it may have, two octets each, from the start of what is behind its values.
pub fn ids_of(s: &[u8]) -> [u16; 128]
    ensures { 128 ≡ length result }
{
    let mut ids = [0u16; 128];
    for i in 0..128 {
        ids[i] = pair(s, i * 2) as u16;
    }
    ids
}
