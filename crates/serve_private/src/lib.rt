// Requests about private channels: CCrq, CDrq, CArq, CErq. Each decides, sends where there is room, then stores.
#![tactic(auto)]

ghost use Rattle.std.specs.Prelude.{◌≡◌, true, false, ℕ, take};
ghost use Rattle.codec_table.specs.Named.{CCrq, CDrq};
ghost use Rattle.cols_spec.specs.Sets.{with, seats};
ghost use Rattle.domain.specs.Cells.{kind};
ghost use Rattle.domain.specs.Tables.{Channels as ChannelsOf, hosts as hosts_of, grant};
ghost use Rattle.domain.specs.Effects.{Effect, ignored as ignored_by, settle, answered};
ghost use Rattle.domain.specs.Channels.{owned, manages};
ghost use Rattle.domain.specs.Events.{act};
ghost use Rattle.domain_tables.specs.Held.{domain_in, users_in, channels_in};
ghost use Rattle.serve_private.specs.Changes.{picks, changed, changes, asker, asked_of, asks, at_managed};

use cols_masks::Mask;
use domain::answer::Answer;
use domain::channel::{Channel, Kind};
use domain::numbers;
use domain::numbers::Reply;
use domain_tables::{Channels, Domain, Members, Users};
use serve_private_tell::Pick;
pub use serve_private_tell::Say;
use serve_reply::confirms;

// CCrq by u on p.
pub fn convene(d: &mut Domain, p: u8, u: u16, out: &mut [u8]) -> Answer
    ensures { let old = domain_in d.old in
        answered result (domain_in d.new) out.new ≡ settle old (act (grant old.channels) old p (CCrq u)) out.old }
{
    let Some(i) = d.users.attached(p, u) else {
        return serve_reply::ignored();
    };
    if domain_tables::at_limit(d.limits.channels, &d.channels.ids) {
        return confirms::convene(out, p, u, Err(numbers::Result::TooManyChannels));
    }
    let new = cols_walk::unused(&d.channels.ids);
    let a = confirms::convene(out, p, u, Ok(new));
    if serve_reply::refused(a) {
        return a;
    }
    let ch = domain_state::channel::new_channel(Kind::Private(i, 0), 0);
    d.channels.add(&mut d.members, new, ch);
    a
}

// The user at place i manages this channel.
fn presides(ch: Channel, i: u8) -> bool
    ensures yes { result ≡ true → (go : (ℕ → ℕ → Effect ChannelsOf)) → owned (kind ch) i go ≡ go ch.chair ch.guests }
    ensures no { result ≡ false → (go : (ℕ → ℕ → Effect ChannelsOf)) → owned (kind ch) i go ≡ ignored_by }
{
    match Kind::from(ch) {
        Kind::Private(_, _) => ch.chair == i,
        Kind::Static | Kind::User | Kind::Assigned => false,
    }
}

// The place of private channel c, where u on p manages it.
fn managed(d: &Domain, p: u8, u: u16, c: u16) -> Option<usize>
    ensures { let cs = channels_in d.now.channels d.now.members in
        (go : (ℕ → ℕ → ℕ → Effect ChannelsOf)) → manages (users_in d.now.users) cs p u c go ≡ at_managed cs result go }
{
    let i = d.users.attached(p, u)?;
    let j = d.channels.find(c)?;
    if presides(d.channels.at(&d.members, j), i) {
        return Some(j);
    }
    None
}

// The connections with the manager or an admitted user.
fn homes_of(users: &Users, chair: u8, guests: u64) -> u16
    ensures { result ≡ hosts_of (users_in users.now) (with seats guests chair) }
{
    users.hosts(guests.with(chair))
}

// CDrq by u on p for channel c.
pub fn disband(d: &mut Domain, p: u8, u: u16, c: u16, out: &mut [u8]) -> Answer
    ensures { let old = domain_in d.old in
        answered result (domain_in d.new) out.new ≡ settle old (act (grant old.channels) old p (CDrq u c)) out.old }
{
    let Some(j) = managed(d, p, u, c) else {
        return serve_reply::ignored();
    };
    let ch = d.channels.at(&d.members, j);
    let mask = homes_of(&d.users, ch.chair, ch.guests);
    let m = out_messages::disband_indication(c);
    let a = serve_reply::tell(out, mask, &m);
    if serve_reply::refused(a) {
        return a;
    }
    d.channels.end(&mut d.members, j);
    a
}

// Whose ids count: who is admitted must be attached, who is expelled must be admitted.
fn pick_for(s: Say, guests: u64) -> Pick
    ensures { result ≡ picks s guests }
{
    match s {
        Say::Admits(_, _) => Pick::Attached,
        Say::Expels(_, _) => Pick::Admitted(guests),
    }
}

// The channel once the users at these places are admitted or expelled.
fn with_change(users: &Users, s: Say, ch: Channel, seats: u64) -> Channel
    ensures { result ≡ changed (users_in users.now) s ch seats }
{
    match s {
        Say::Admits(_, _) => Channel {
            guests: ch.guests.union(seats),
            ..ch
        },
        Say::Expels(_, _) => {
            let stay = ch.guests.minus(seats);
            let mask = homes_of(users, ch.chair, stay);
            Channel {
                guests: stay,
                marks: ch.marks.meet(mask),
                ..ch
            }
        }
    }
}

// The first 64 ids of a list are admitted to the private channel at place j, or expelled.
fn change(
    users: &Users,
    channels: &mut Channels,
    members: &mut Members,
    j: usize,
    s: Say,
    listed: &mut [u16],
    out: &mut [u8],
) -> Answer
    ensures { let cs = channels_in channels.old members.old in
        answered result (channels_in channels.new members.new) out.new ≡ settle cs (changes (users_in users.now) cs j s (take 64 listed.old)) out.old }
{
    let ch = channels.at(members, j);
    let told = serve_private_tell::tell_chosen(users, pick_for(s, ch.guests), s, listed, out);
    let a = told.answer;
    if a.reply == Reply::Done {
        channels.put(members, j, with_change(users, s, ch, told.seats));
    }
    a
}

// Who asks, and of which channel.
fn asked(s: Say) -> (u16, u16)
    ensures { result ≡ (asker s, asked_of s) }
{
    match s {
        Say::Admits(u, c) | Say::Expels(u, c) => (u, c),
    }
}

// CArq or CErq on p: the first 64 of the ids are admitted, or expelled. One way for both, so that little stands on the stack.
pub fn revise(d: &mut Domain, p: u8, s: Say, listed: &mut [u16], out: &mut [u8]) -> Answer
    ensures { let old = domain_in d.old in
        answered result (domain_in d.new) out.new ≡ settle old (act (grant old.channels) old p (asks s (take 64 listed.old))) out.old }
{
    let (u, c) = asked(s);
    let Some(j) = managed(d, p, u, c) else {
        return serve_reply::ignored();
    };
    change(&d.users, &mut d.channels, &mut d.members, j, s, listed, out)
}
