// Requests about users and channels: AUrq, CJrq, CLrq. Each decides, sends where there is room, then stores.
#![tactic(auto)]

ghost use Rattle.std.specs.Prelude.{◌≡◌, ◌&&◌, [], ◌∷◌, ◌<◌, eqb};
ghost use Rattle.codec_table.specs.Named.{AUrq, CJrq, CLrq, CJcf};
ghost use Rattle.cols_spec.specs.Sets.{any, only, connections as all_links};
ghost use Rattle.cols_spec.specs.Swept.{Turns, anywhere};
ghost use Rattle.out_records.specs.Records.{to};
ghost use Rattle.domain.specs.Cells.{no_channel, kind, channel_of};
ghost use Rattle.domain.specs.Tables.{channel, add_channel, sweep_channels, lapses, at_limit, grant};
ghost use Rattle.domain.specs.Effects.{done, settle, answered, delivers};
ghost use Rattle.domain.specs.Channels.{join_at, join_new, may, joined as joined_in, left};
ghost use Rattle.domain.specs.Events.{act};
ghost use Rattle.domain_tables.specs.Held.{domain_in, channels_in, cells_in};
ghost use Rattle.serve_reply.specs.Granted.{code, id};

use cols_masks::Mask;
use domain::answer::Answer;
use domain::channel::{Channel, Kind};
use domain::numbers;
use domain::numbers::Reply;
use domain_tables::{Channels, Domain, Members};
use serve_reply::confirms;

// AUrq on p.
pub fn attach(d: &mut Domain, p: u8, out: &mut [u8]) -> Answer
    ensures { let old = domain_in d.old in
        answered result (domain_in d.new) out.new ≡ settle old (act (grant old.channels) old p AUrq) out.old }
{
    if domain_tables::at_limit(d.limits.users, &d.users.ids) {
        return confirms::user(out, p, Err(numbers::Result::TooManyUsers));
    }
    if domain_tables::at_limit(d.limits.channels, &d.channels.ids) {
        return confirms::user(out, p, Err(numbers::Result::TooManyChannels));
    }
    let new = cols_walk::unused(&d.channels.ids);
    let a = confirms::user(out, p, Ok(new));
    if serve_reply::refused(a) {
        return a;
    }
    d.users.add(new, p);
    let ch = domain_state::channel::new_channel(Kind::User, 0);
    d.channels.add(&mut d.members, new, ch);
    a
}

// What a CJrq asks: user u on connection p would join channel c.
#[derive(Clone, Copy)]
struct Ask {
    p: u8,
    u: u16,
    c: u16,
}

impl Ask {
    fn confirm(self, out: &mut [u8], granted: Result<u16, numbers::Result>) -> Answer
        ensures { answered {A = Unit {0}} result tt out.new ≡ delivers 0 tt tt (to self.p (CJcf (code granted) self.u self.c (id granted)) ∷ []) out.old }
    {
        confirms::join(out, self.p, self.u, self.c, granted)
    }
}

// CJrq for the channel at place j, by the user at place i.
fn join_at(
    channels: &mut Channels,
    members: &mut Members,
    ask: Ask,
    i: u8,
    j: usize,
    out: &mut [u8],
) -> Answer
    ensures { let cs = channels_in channels.old members.old in
        answered result (channels_in channels.new members.new) out.new
        ≡ settle cs (join_at cs ask.p ask.u ask.c j (may (kind (channel cs j)) ask.c ask.u i)) out.old }
{
    let ch = channels.at(members, j);
    let res = domain_state::channel::may_join(Kind::from(ch), ask.c, ask.u, i);
    let denied = res != numbers::Result::Successful;
    if denied {
        return ask.confirm(out, Err(res));
    }
    let a = ask.confirm(out, Ok(ask.c));
    if serve_reply::refused(a) {
        return a;
    }
    let now = Channel {
        marks: ch.marks.with(ask.p),
        ..ch
    };
    channels.put(members, j, now);
    a
}

// A new channel of a kind, which p has joined.
fn start(
    channels: &mut Channels,
    members: &mut Members,
    k: Kind,
    new: u16,
    ask: Ask,
    out: &mut [u8],
) -> Answer
    ensures { let cs = channels_in channels.old members.old in
        answered result (channels_in channels.new members.new) out.new
        ≡ settle cs (done (add_channel cs new (channel_of k (only all_links ask.p))) (to ask.p (CJcf 0 ask.u ask.c (id (Ok new))) ∷ [])) out.old }
{
    let a = ask.confirm(out, Ok(new));
    if serve_reply::refused(a) {
        return a;
    }
    let ch = domain_state::channel::new_channel(k, u16::only(ask.p));
    channels.add(members, new, ch);
    a
}

// CJrq for a channel not in use, where so many channels may be.
fn join_new(
    channels: &mut Channels,
    members: &mut Members,
    limit: u8,
    ask: Ask,
    out: &mut [u8],
) -> Answer
    ensures { let cs = channels_in channels.old members.old in
        answered result (channels_in channels.new members.new) out.new
        ≡ settle cs (join_new (grant cs) (at_limit limit cs.ids) cs ask.p ask.u ask.c) out.old }
{
    if 1000 < ask.c {
        return ask.confirm(out, Err(numbers::Result::NoSuchChannel));
    }
    if domain_tables::at_limit(limit, &channels.ids) {
        return ask.confirm(out, Err(numbers::Result::TooManyChannels));
    }
    // A static channel; where c is 0, an assigned one with an id of its own.
    let (kind, new) = if ask.c == 0 {
        (Kind::Assigned, cols_walk::unused(&channels.ids))
    } else {
        (Kind::Static, ask.c)
    };
    start(channels, members, kind, new, ask, out)
}

// CJrq by u on p for channel c.
pub fn join(d: &mut Domain, p: u8, u: u16, c: u16, out: &mut [u8]) -> Answer
    ensures { let old = domain_in d.old in
        answered result (domain_in d.new) out.new ≡ settle old (act (grant old.channels) old p (CJrq u c)) out.old }
{
    let Some(i) = d.users.attached(p, u) else {
        return serve_reply::ignored();
    };
    let ask = Ask { p, u, c };
    match d.channels.find(c) {
        Some(j) => join_at(&mut d.channels, &mut d.members, ask, i, j, out),
        None => join_new(&mut d.channels, &mut d.members, d.limits.channels, ask, out),
    }
}

// p has joined channel c.
fn is_joined(channels: &Channels, members: &Members, p: u8, c: u16) -> bool
    ensures { result ≡ joined_in (channels_in channels.now members.now) p c }
{
    match channels.find(c) {
        Some(j) => cols_masks::has(channels.at(members, j).marks as u64, p),
        None => false,
    }
}

// p has joined one of the listed channels.
fn any_joined(channels: &Channels, members: &Members, p: u8, listed: &[u16]) -> bool
    ensures { result ≡ any (joined_in (channels_in channels.now members.now) p) listed.now }
{
    listed.iter().any(|&c| is_joined(channels, members, p, c))
}

// A channel with these connections joined ends.
fn ends(ch: Channel, left: u16) -> bool
    ensures { result ≡ (lapses (kind ch) && eqb left 0) }
{
    left == 0 && domain_state::channel::lapses(Kind::from(ch))
}

// p leaves the channel at place j, where that is listed.
fn leave_at(channels: &mut Channels, members: &mut Members, p: u8, listed: &[u16], j: usize)
    requires { j < 128 }
    ensures { Turns no_channel (anywhere (left p listed.now)) j
        channels.old.ids (cells_in channels.old members.old)
        channels.new.ids (cells_in channels.new members.new) }
{
    let c = channels.ids[j];
    if c == 0 {
        return;
    }
    if cols_walk::member(listed, c) {
        let ch = channels.at(members, j);
        let left = ch.marks.without(p);
        if ends(ch, left) {
            channels.end(members, j);
            return;
        }
        channels.put(members, j, Channel { marks: left, ..ch });
    }
}

// p leaves each listed channel: from one place in use to the next.
fn leave_all(channels: &mut Channels, members: &mut Members, p: u8, listed: &[u16])
    ensures { channels_in channels.new members.new ≡ sweep_channels (left p listed.now) (channels_in channels.old members.old) }
{
    // As many as there are places.
    let n = members.joined[..].len();
    let mut j = cols_walk::used_from(&channels.ids, 0);
    while j < n {
        leave_at(channels, members, p, listed, j);
        j = cols_walk::used_from(&channels.ids, j + 1);
    }
}

// CLrq on p for the listed channels.
pub fn leave_channels(d: &mut Domain, p: u8, listed: &[u16], out: &mut [u8]) -> Answer
    ensures { let old = domain_in d.old in
        answered result (domain_in d.new) out.new ≡ settle old (act (grant old.channels) old p (CLrq listed.now)) out.old }
{
    if any_joined(&d.channels, &d.members, p, listed) {
        leave_all(&mut d.channels, &mut d.members, p, listed);
        return Answer {
            reply: Reply::Done,
            sent: 0,
        };
    }
    serve_reply::ignored()
}
