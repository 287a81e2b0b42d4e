// A domain is made, connections open, and the tables are asked.
#![tactic(auto)]

ghost use Rattle.std.specs.Prelude.{◌≡◌, List, ℕ};
ghost use Rattle.domain.specs.Numbers.{reply_number};
ghost use Rattle.domain.specs.Tables.{Domain as Tables, put_links, between, in_range};
ghost use Rattle.domain.specs.Effects.{settled};
ghost use Rattle.domain.specs.Events.{opens};
ghost use Rattle.domain.specs.Outcomes.{limited, begun, after, audience as audience_of};
ghost use Rattle.domain_tables.specs.Held.{domain_in};
ghost use Rattle.cols_spec.specs.Places.{used};

use cols_masks::Mask;
use domain::Limits;
use domain::numbers::Reply;
use domain_tables::Domain;

// A domain with these limits, and nothing in it; a limit out of range leaves the domain as it is.
pub fn start(d: &mut Domain, channels: u32, users: u32, tokens: u32) -> Reply
    ensures { ◌≡◌ {A = ℕ × Tables} (reply_number result, domain_in d.new) (begun channels users tokens (domain_in d.old)) }
{
    if !in_range(channels, users, tokens) {
        return Reply::BadLimit;
    }
    d.limits = Limits {
        channels: channels as u8,
        users: users as u8,
        tokens: tokens as u8,
    };
    d.links = 0;
    d.users.ids = [0u16; 64];
    d.users.links = [0u8; 64];
    d.channels.ids = [0u16; 128];
    d.channels.kinds = [0u8; 128];
    d.channels.managers = [0u8; 128];
    d.members.admitted = [0u64; 128];
    d.members.joined = [0u16; 128];
    d.tokens.ids = [0u16; 64];
    d.tokens.states = [0u8; 64];
    d.tokens.values = [0u64; 64];
    Reply::Done
}

#[tactic(auto, unfolding(domain::specs::Tables::in_range))]
fn in_range(channels: u32, users: u32, tokens: u32) -> bool
    ensures { result ≡ in_range (limited channels users tokens) }
{
    up_to(128, channels) && up_to(64, users) && up_to(64, tokens)
}

#[tactic(auto, unfolding(domain::specs::Tables::between))]
fn up_to(most: u32, n: u32) -> bool
    ensures { result ≡ between 1 most n }
{
    (1..=most).contains(&n)
}

// Connection p opens. Nothing is sent, whatever the room.
pub fn open(links: &mut u16, p: u8) -> Reply
    ensures { (d : Tables) (out : List ℕ) → settled (reply_number result) 0 (put_links d links.new) out ≡ after (put_links d links.old) (opens p) out }
{
    let before = *links;
    if 15 < p {
        return Reply::NotOpen;
    }
    if cols_masks::has(before as u64, p) {
        return Reply::OpenAlready;
    }
    *links = before.with(p);
    Reply::Done
}

// A channel's audience: the number of connections joined, 0 if it is not in use.
pub fn audience(d: &Domain, c: u16) -> u32
    ensures { result ≡ audience_of (domain_in d.now).channels c }
{
    match d.channels.find(c) {
        Some(j) => cols_masks::count_links(d.channels.at(&d.members, j).marks),
        None => 0,
    }
}

// Users, channels and tokens in use, by the column of their ids.
pub fn in_use(ids: &[u16]) -> usize
    ensures { result ≡ used ids.now }
{
    cols_find::used(ids)
}
