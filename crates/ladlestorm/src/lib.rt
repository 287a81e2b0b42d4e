// What a conference bridge written in C calls: one domain in a struct that the bridge keeps; any contents are taken. Each function has its answer from
// `c_fields`. include/ladlestorm.h has the functions for C; those with `raw` in their name take octets or a room, and the header has one around each,
// which takes NULL with length 0.
#![tactic(auto)]

ghost use Rattle.std.specs.Prelude.{◌≡◌, List, ℕ};
ghost use Rattle.cols_spec.specs.Places.{used};
ghost use Rattle.domain.specs.Tables.{Domain as Tables};
ghost use Rattle.domain.specs.Effects.{settled};
ghost use Rattle.domain.specs.Events.{opens, loses, hears};
ghost use Rattle.domain.specs.Outcomes.{begun, after, audience};
ghost use Rattle.serve_read.specs.Understood.{understood};
ghost use Rattle.ladlestorm.specs.Held.{domain_in};

use c_fields::Answered;
pub use domain_tables::Domain;

pub mod traces;

// A domain with these limits, and nothing in it; a limit out of range leaves the struct as it is.
#[unsafe(no_mangle)]
pub extern "C" fn ladlestorm_start(d: &mut Domain, channels: u32, users: u32, tokens: u32) -> u32
    ensures { ◌≡◌ {A = ℕ × Tables} (result, domain_in d.new) (begun channels users tokens (domain_in d.old)) }
{
    c_fields::start(d, channels, users, tokens)
}

// Connection p opens.
#[unsafe(no_mangle)]
pub extern "C" fn ladlestorm_open(d: &mut Domain, p: u32) -> u32
    ensures { (out : List ℕ) → settled result 0 (domain_in d.new) out ≡ after (domain_in d.old) (opens p) out }
{
    c_fields::open(d, p)
}

// Connection p is lost.
#[unsafe(no_mangle)]
pub extern "C" fn ladlestorm_raw_lose(d: &mut Domain, p: u32, out: &mut [u8]) -> Answered
    ensures { settled result.reply result.sent (domain_in d.new) out.new ≡ after (domain_in d.old) (loses p) out.old }
{
    c_fields::lose(d, p, out)
}

// A message on connection p: any octets.
#[unsafe(no_mangle)]
pub extern "C" fn ladlestorm_raw_message(
    d: &mut Domain,
    p: u32,
    octets: &[u8],
    out: &mut [u8],
) -> Answered
    ensures { settled result.reply result.sent (domain_in d.new) out.new
        ≡ after (domain_in d.old) (hears p (understood octets.now)) out.old }
{
    c_fields::message(d, p, octets, out)
}

// The number of connections joined to channel c, 0 if it is not in use.
#[unsafe(no_mangle)]
pub extern "C" fn ladlestorm_audience(d: &Domain, c: u16) -> u32
    ensures { result ≡ audience (domain_in d.now).channels c }
{
    c_fields::audience(d, c)
}

// The users in use.
#[unsafe(no_mangle)]
pub extern "C" fn ladlestorm_users(d: &Domain) -> usize
    ensures { result ≡ used (domain_in d.now).users.ids }
{
    c_fields::in_use(&d.users.ids)
}

// The channels in use.
#[unsafe(no_mangle)]
pub extern "C" fn ladlestorm_channels(d: &Domain) -> usize
    ensures { result ≡ used (domain_in d.now).channels.ids }
{
    c_fields::in_use(&d.channels.ids)
}

// The tokens in use.
#[unsafe(no_mangle)]
pub extern "C" fn ladlestorm_tokens(d: &Domain) -> usize
    ensures { result ≡ used (domain_in d.now).tokens.ids }
{
    c_fields::in_use(&d.tokens.ids)
}
