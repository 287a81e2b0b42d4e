// Why octets are no message, or why values are not written.
ghost use Rattle.std.specs.Prelude.{◌≡◌};
ghost use Rattle.codec_octets.specs.Refusals.{refusal_number};

#[derive(Clone, Copy, Debug, PartialEq, Eq)]
pub enum Refusal {
    // 0 octets, or above 1,024.
    WrongLength,
    BadEncoding,
    // The codec does not cover the message.
    NotServed,
    // A list above its limit, a number above 4 octets, a fragmented length, a value out of range.
    TooLong,
    NoRoom,
}

// The number of the reply that document 01 lists for it.
impl From<Refusal> for u8 {
    ghost from_gives = { λ r n. n ≡ refusal_number r };

    #[tactic(auto, unfolding(crate::specs::Refusals::refusal_number))]
    fn from(r: Refusal) -> u8 {
        match r {
            Refusal::WrongLength => 4,
            Refusal::BadEncoding => 5,
            Refusal::NotServed => 7,
            Refusal::TooLong => 8,
            Refusal::NoRoom => 9,
        }
    }
}
