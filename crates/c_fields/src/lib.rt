// The provider's answers as numbers for C: a reply is its number, and a connection is any number of C's.
#![tactic(auto)]

ghost use Rattle.std.specs.Prelude.{◌≡◌, ◌⊎◌, List, ℕ, ◌<◌};
ghost use Rattle.cols_spec.specs.Places.{used};
ghost use Rattle.domain.specs.Tables.{Domain as Tables};
ghost use Rattle.domain.specs.Numbers.{reply_number};
ghost use Rattle.domain.specs.Effects.{settled};
ghost use Rattle.domain.specs.Events.{opens, loses, hears};
ghost use Rattle.domain.specs.Outcomes.{begun, after, audience as audience_of};
ghost use Rattle.domain_tables.specs.Held.{domain_in};
ghost use Rattle.serve_read.specs.Understood.{understood};

use domain::answer::Answer;
use domain_tables::Domain;

// What an event is answered with: the reply's number, and how many octets are sent.
#[repr(C)]
#[derive(Clone, Copy)]
pub struct Answered {
    pub reply: u32,
    pub sent: usize,
}

impl From<Answer> for Answered {
    ghost from_gives = { λ a n. (n.reply ≡ reply_number a.reply) × (n.sent ≡ a.sent) };

    fn from(a: Answer) -> Answered {
        Answered {
            reply: u8::from(a.reply) as u32,
            sent: a.sent,
        }
    }
}

// A domain with these limits, and nothing in it; a limit out of range leaves the domain as it is.
pub fn start(d: &mut Domain, channels: u32, users: u32, tokens: u32) -> u32
    ensures { ◌≡◌ {A = ℕ × Tables} (result, domain_in d.new) (begun channels users tokens (domain_in d.old)) }
{
    let reply = serve_session::start(d, channels, users, tokens);
    u8::from(reply) as u32
}

// Connection p opens.
pub fn open(d: &mut Domain, p: u32) -> u32
    ensures { (out : List ℕ) → settled result 0 (domain_in d.new) out ≡ after (domain_in d.old) (opens p) out }
{
    let reply = serve_session::open(&mut d.links, link_of(p));
    u8::from(reply) as u32
}

// Connection p is lost.
pub fn lose(d: &mut Domain, p: u32, out: &mut [u8]) -> Answered
    ensures { settled result.reply result.sent (domain_in d.new) out.new ≡ after (domain_in d.old) (loses p) out.old }
{
    let a = provider::lose(d, link_of(p), out);
    Answered::from(a)
}

// A message on connection p: any octets.
pub fn message(d: &mut Domain, p: u32, octets: &[u8], out: &mut [u8]) -> Answered
    ensures { settled result.reply result.sent (domain_in d.new) out.new
        ≡ after (domain_in d.old) (hears p (understood octets.now)) out.old }
{
    let a = provider::message(d, link_of(p), octets, out);
    Answered::from(a)
}

// A connection's number as an octet: its own up to 255. Above 15 there are no connections, and 255 stands for all that no octet holds.
fn link_of(p: u32) -> u8
    ensures { (result ≡ p) ⊎ ((15 < result) × (15 < p)) }
{
    u8::try_from(p).unwrap_or(255)
}

// A channel's audience.
pub fn audience(d: &Domain, c: u16) -> u32
    ensures { result ≡ audience_of (domain_in d.now).channels c }
{
    serve_session::audience(d, c)
}

// Users, channels and tokens in use, by the column of their ids.
pub fn in_use(ids: &[u16]) -> usize
    ensures { result ≡ used ids.now }
{
    serve_session::in_use(ids)
}
