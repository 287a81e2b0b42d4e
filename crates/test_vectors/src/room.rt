// The room that the writer is lent: filled with a pattern, so that it shows what was touched.
ghost use Rattle.std.specs.Prelude.{◌≡◌, length};

const PATTERN: u8 = 0xA5;

// A fresh room, larger than any message.
pub fn fresh() -> [u8; 1100]
    ensures { 1100 ≡ length result }
{
    [PATTERN; 1100]
}

// Whether the room holds these octets, and the pattern behind them.
pub fn holds(room: &[u8], octets: &[u8]) -> bool {
    octets.len() <= room.len()
        && room[..octets.len()] == octets[..]
        && room[octets.len()..].iter().all(|o| *o == PATTERN)
}
