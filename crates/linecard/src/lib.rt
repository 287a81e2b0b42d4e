// The one question that the line card's C program asks.
#![tactic(auto)]

ghost use Rattle.std.specs.Prelude.{◌≡◌};
ghost use Rattle.codec_read.specs.Reading.{decode_of};
ghost use Rattle.linecard.specs.Answers.{answer_of};

use codec_read::decode;

// The line card's question: the number of the message, or 64 plus the refusal. include/linecard.h has it for C.
#[unsafe(no_mangle)]
pub extern "C" fn ladlestorm_raw_message_number(s: &[u8]) -> u32
    ensures { result ≡ answer_of (decode_of s.now) }
{
    match decode(s) {
        Ok(d) => d.head.number,
        Err(refusal) => 64 + u8::from(refusal) as u32,
    }
}
