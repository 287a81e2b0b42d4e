// What the provider makes of the octets of a message, before it looks at any table.
#![tactic(auto)]

ghost use Rattle.std.specs.Prelude.{◌≡◌};
ghost use Rattle.codec_octets.specs.Refusals.{refusal_number};
ghost use Rattle.domain.specs.Numbers.{reply_number};
ghost use Rattle.codec_read_fast.specs.Shortly.{few_ids, NoneRead};
ghost use Rattle.serve_read.specs.Readings.{reply_for, Understands, request_of, listed_as};

use codec_octets::Refusal;
use codec_read::Head;
use codec_read_fast::lists::Listing;
use domain::numbers::Reply;

// What a message asks for: its number, first values and how many ids it lists.
#[derive(Clone, Copy)]
pub struct Request {
    pub number: u32,
    pub first: u16,
    pub second: u16,
    pub count: usize,
}

impl From<Listing> for Request {
    ghost from_gives = { λ l q. q ≡ listed_as l };

    fn from(l: Listing) -> Request {
        Request {
            number: l.number,
            first: l.first,
            second: l.second,
            count: l.count,
        }
    }
}

// Of a message that the table reads; ids and codes are below 65,536.
impl From<Head> for Request {
    ghost from_gives = { λ h q. q ≡ request_of h };

    fn from(h: Head) -> Request {
        Request {
            number: h.number,
            first: (h.values[0] % 65536) as u16,
            second: (h.values[1] % 65536) as u16,
            count: h.items.count(),
        }
    }
}

// A request, or the reply that refuses the message. Messages with a list of ids first, which is stored; else the long way, which stores it too. Those of a
// few ids alone are read before, where no list is at hand (`codec_read_fast` `read_token`, `read_short`): nothing is said of them here, so a request need
// hold no more than two values and a list.
pub fn understand(octets: &[u8], listed: &mut [u16; 64]) -> Result<Request, Reply>
    ensures { NoneRead few_ids octets.now → Understands octets.now result listed.new }
{
    if let Some(l) = codec_read_fast::lists::read_listing(octets, listed) {
        let asked = Request::from(l);
        return Ok(asked);
    }
    understand_all(octets, listed)
}

fn understand_all(octets: &[u8], listed: &mut [u16; 64]) -> Result<Request, Reply>
    ensures { NoneRead few_ids octets.now → Understands octets.now result listed.new }
{
    if octets.len() == 0 {
        return Err(Reply::WrongLength);
    }
    if codec_table::MESSAGE_LIMIT < octets.len() {
        return Err(Reply::WrongLength);
    }
    let number = (octets[0] / 4) as u32;
    if 42 < number {
        return Err(Reply::BadEncoding);
    }
    let way = codec_table::way_of(number);
    if !codec_table::goes_up(way) {
        return Err(Reply::MayNotGoUp);
    }
    if !codec_table::is_served(way) {
        return Err(Reply::NotServed);
    }
    match codec_read::read_into(octets, listed) {
        Ok(h) => {
            let read = Request::from(h);
            Ok(read)
        }
        Err(refusal) => Err(reply_of(refusal)),
    }
}

// The reply of a codec's refusal.
#[tactic(auto, unfolding(crate::specs::Readings::reply_for))]
fn reply_of(refusal: Refusal) -> Reply
    ensures { reply_number result ≡ reply_for (refusal_number refusal) }
{
    match refusal {
        Refusal::WrongLength => Reply::WrongLength,
        Refusal::BadEncoding => Reply::BadEncoding,
        Refusal::NotServed => Reply::NotServed,
        Refusal::TooLong | Refusal::NoRoom => Reply::TooLong,
    }
}
