// The writer and the reader together: what is written is read back.
#![tactic(auto)]

ghost use Rattle.codec_roundtrip.specs.RoundTrip.{ReadBack};
ghost use Rattle.codec_size.specs.Sizes.{given};

use codec_octets::Refusal;
use codec_read::Decoded;
use codec_read_fast::decode;
use codec_write::encode;

// A message written and read back from the octets written.
pub fn encode_decode(
    number: u32,
    values: &[u32],
    ids: &[u16],
    octets: &[u8],
    out: &mut [u8],
) -> Result<Decoded, Refusal>
    ensures { ReadBack (given number values.now ids.now octets.now) out.old result out.new }
{
    let n = encode(number, values, ids, octets, out)?;
    decode(&out[..n])
}
