// The messages with a list that a top provider sends, and the RJum with its octets: laid into a room.
ghost use Rattle.std.specs.Prelude.{take};
ghost use Rattle.codec_table.specs.Named.{DUin, RJum};
ghost use Rattle.out_records.specs.Records.{wire};
ghost use Rattle.out_records.specs.Out.{Puts, listing};

use codec_table::LIST_LIMIT;

pub fn detach_indication(s: &mut [u8], reason: u8, ids: &[u16]) -> usize
    ensures { Puts s.old 0 (listing ids.now (wire (DUin reason ids.now))) s.new result }
{
    if ids.len() <= LIST_LIMIT {
        let head = [52 + reason / 2, reason % 2 * 128, ids.len() as u8];
        let at = crate::lay(s, 0, &head);
        return crate::lay_ids(s, at, 1001, ids);
    }
    0
}

// RJum carries the message's first 16 octets, or all if fewer.
pub fn reject(s: &mut [u8], diagnostic: u8, m: &[u8]) -> usize
    ensures { Puts s.old 0 (wire (RJum diagnostic (take 16 m.now))) s.new result }
{
    let n = usize::min(16, m.len());
    let head = [36 + diagnostic / 4, diagnostic % 4 * 64, n as u8];
    let at = crate::lay(s, 0, &head);
    crate::lay(s, at, &m[..n])
}
