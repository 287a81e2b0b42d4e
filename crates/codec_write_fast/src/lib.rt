// The short way of writing: the confirms of a token's requests, which a conference sends most. Everything else is written by the table of messages.
#![tactic(auto)]

ghost use Rattle.std.specs.Prelude.{◌≡◌, true, false, ◌++◌, length, get_or, drop, Ok};
ghost use Rattle.codec_size.specs.Sizes.{given};
ghost use Rattle.codec_write.specs.Writing.{Encodes};
ghost use Rattle.codec_write_fast.specs.Tersely.{Confirms, InRange, Short, short_octets};

use codec_octets::Refusal;

// TGcf, TIcf, TVcf, TRcf.
fn is_confirm(number: u32) -> bool
    ensures { result ≡ true → Confirms number }
{
    matches!(number, 30 | 32 | 36 | 40)
}

// Whether the fields of a confirm are in range.
fn in_range(res: u32, user: u32, token: u32, status: u32) -> bool
    ensures { result ≡ true → InRange res user token status }
{
    res <= 15 && 1001 <= user && user <= 65535 && 1 <= token && token <= 65535 && status <= 7
}

// Whether a message goes the short way into a room of so many octets.
fn is_short(number: u32, values: &[u32], ids: &[u16], octets: &[u8], room: usize) -> bool
    ensures { result ≡ true → Short number values.now ids.now octets.now room }
{
    let has_room = 7 <= room;
    values.len() == 4
        && ids.is_empty()
        && octets.is_empty()
        && has_room
        && is_confirm(number)
        && in_range(values[0], values[1], values[2], values[3])
}

// A confirm, octet by octet, at the start of the room.
fn put_confirm(number: u32, values: &[u32], ids: &[u16], octets: &[u8], out: &mut [u8])
    requires { Short number values.now ids.now octets.now (length out.old) }
    ensures { out.new ≡ short_octets number (get_or values.now 0 0) (get_or values.now 1 0) (get_or values.now 2 0) (get_or values.now 3 0) ++ drop 7 out.old }
{
    let result = values[0];
    let user = values[1] - 1001;
    let token = values[2] - 1;
    out[0] = (number * 4 + result / 4) as u8;
    out[1] = (result % 4 * 64) as u8;
    out[2] = (user / 256) as u8;
    out[3] = (user % 256) as u8;
    out[4] = (token / 256) as u8;
    out[5] = (token % 256) as u8;
    out[6] = (values[3] * 32) as u8;
}

// A confirm at the start of the room, in its 7 octets; or nothing, and the room is untouched. Whether it is written. What is written has its fields in
// range; that it is written where they are is not promised.
pub fn encode_short(number: u32, values: &[u32], ids: &[u16], octets: &[u8], out: &mut [u8]) -> bool
    ensures { (result ≡ true → Encodes (given number values.now ids.now octets.now) out.old (Ok 7) out.new)
        × (result ≡ false → out.new ≡ out.old) }
{
    if is_short(number, values, ids, octets, out.len()) {
        put_confirm(number, values, ids, octets, out);
        return true;
    }
    false
}

// The octets of a message, at the start of the room lent: how many; or a refusal, with the room untouched.
pub fn encode(
    number: u32,
    values: &[u32],
    ids: &[u16],
    octets: &[u8],
    out: &mut [u8],
) -> Result<usize, Refusal>
    ensures { Encodes (given number values.now ids.now octets.now) out.old result out.new }
{
    if encode_short(number, values, ids, octets, out) {
        return Ok(7);
    }
    codec_write::encode(number, values, ids, octets, out)
}
