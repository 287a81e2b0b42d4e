// The records that tell of users who leave: DUin by connection, CDin by channel, TVcf by token.
#![tactic(auto)]

ghost use Rattle.std.specs.Prelude.{◌≡◌, List, [], ◌∷◌, ◌++◌, ℕ, ◌+◌, ◌-◌, ◌<◌, ◌≤◌, length, take, IfSome, if◌then◌else◌};
ghost use Rattle.cols_spec.specs.Sets.{each, ids_above};
ghost use Rattle.cols_spec.specs.Places.{next as next_in, in_order, picked};
ghost use Rattle.codec_table.specs.Named.{TVcf, no_such_user};
ghost use Rattle.out_records.specs.Records.{to, records as records_of};
ghost use Rattle.out_records.specs.Out.{Puts};
ghost use Rattle.domain.specs.declared.token.Holding.TheVariants.{Giving};
ghost use Rattle.domain.specs.Tables.{name, link};
ghost use Rattle.domain_tables.specs.Held.{channels_in, domain_in, tokens_in, users_in};
ghost use Rattle.domain.specs.Tokens.{status as status_of, lose as lose_of};
ghost use Rattle.domain.specs.Leaving.{ended, returned, farewell as farewell_of};
ghost use Rattle.serve_leave_records.specs.Parts.{parting, kind_at, ends_by, ends_there, end_at, return_at};
ghost use Rattle.serve_leave_records.specs.Endings.{Marks, NextMark, id_or_none};

use cols_masks::Mask;
use domain::channel::Kind;
use domain::numbers;
use domain::token::Holding;
use domain_tables::{Channels, Domain, Members, Tokens, Users};
use out_messages::Confirm;

// DUin to the connections that remain, none where nobody leaves.
fn put_parting(out: &mut [u8], live: u16, reason: u8, ids: &[u16]) -> usize
    requires { length ids.now ≤ 64 }
    ensures { (Puts out.old 0 (records_of (parting live reason ids.now)) out.new result) × (result ≤ 2160) }
{
    if ids.len() == 0 {
        return 0;
    }
    let mut m = [0u8; 131];
    let n = out_records::lists::detach_indication(&mut m, reason, ids);
    out_records::tell(out, 0, live, &m[..n])
}

// The same with the first `count` of a list.
fn put_first(out: &mut [u8], live: u16, reason: u8, list: &[u16; 64], count: usize) -> usize
    ensures { (Puts out.old 0 (records_of (parting live reason (take count list.now))) out.new result) × (result ≤ 2160) }
{
    let all = &list[..];
    let n = usize::min(count, all.len());
    put_parting(out, live, reason, &all[..n])
}

// The kind of channel c; of one that is not there, that of a blank.
fn kind_of(channels: &Channels, members: &Members, c: u16) -> Kind
    ensures { result ≡ kind_at (channels_in channels.now members.now) c }
{
    match channels.find(c) {
        Some(j) => Kind::from(channels.at(members, j)),
        None => Kind::Static,
    }
}

// CDin to those that remain of the connections that held the manager g or an admitted user.
fn put_ended(
    out: &mut [u8],
    at: usize,
    users: &Users,
    gone: u64,
    live: u16,
    c: u16,
    k: Kind,
) -> usize
    requires { at ≤ 65535 }
    ensures { Puts out.old at (records_of (ended (users_in users.now) gone live c k)) out.new result }
{
    match k {
        Kind::Private(g, guests) => if cols_masks::has(gone, g) {
            let held = users.hosts(guests.with(g));
            let told = held.meet(live);
            let m = out_messages::disband_indication(c);
            out_records::tell(out, at, told, &m)
        } else {
            at
        },
        _ => at,
    }
}

// A channel of this role and manager's place ends. Both are looked at, with no branch between them.
fn ends(role: u8, chair: u8, gone: u64) -> bool
    ensures { result ≡ ends_by gone role chair }
{
    (role == 3) & cols_masks::has(gone, chair)
}

// The channels that end, as marks of their ids: 1001 to 1064, and 1065 to 1128. Ids are given out from 1001 on, so that no other is met; yet
// any contents are taken.
#[derive(Clone, Copy)]
struct Ending {
    low: u64,
    high: u64,
    beyond: bool,
}

// With channel c; 0 is none.
fn with_end(e: Ending, c: u16) -> Ending
    ensures { (xs : List ℕ) → Marks xs e → Marks (xs ++ c ∷ []) result }
{
    Ending {
        low: e.low.union(cols_walk::mark(1000, c)),
        high: e.high.union(cols_walk::mark(1064, c)),
        beyond: e.beyond | ((0 < c) & ((c < 1001) | (1128 < c))),
    }
}

// The channels that end. Only a private channel, role 3, can end.
fn find_ends(channels: &Channels, gone: u64) -> Ending
    ensures { Marks (picked (ends_there gone channels.now.kinds channels.now.managers) 0 channels.now.ids) result }
{
    let mut e = Ending {
        low: 0,
        high: 0,
        beyond: false,
    };
    let mut j = cols_walk::cell_from(&channels.kinds, 0, 3);
    while j < 128 {
        let is_over = ends(channels.kinds[j], channels.managers[j], gone);
        e = with_end(e, cols_find::if_so(is_over, channels.ids[j]));
        j = cols_walk::cell_from(&channels.kinds, j + 1, 3);
    }
    e
}

// The first number from `from` on that either mask has, the second from 64 on.
fn next_mark(low: u64, high: u64, from: usize) -> Option<usize>
    ensures small { IfSome result (λ r. r < 128) }
    ensures least { (xs : List ℕ) → low ≡ ids_above 1000 xs → high ≡ ids_above 1064 xs → NextMark xs from result }
{
    let q = cols_masks::next_in(low, from);
    if q < 64 {
        return Some(q);
    }
    let r = cols_masks::next_in(high, from.saturating_sub(64));
    if r < 64 { Some(64 + r) } else { None }
}

// The least id above `low` of the channels that end: by their marks, or else of all channels.
fn next_end(ids: &[u16; 128], e: Ending, low: u16) -> Option<u16>
    ensures { (xs : List ℕ) → Marks xs e → result ≡ id_or_none (next_in low 0 (if e.beyond then ids.now else xs)) }
{
    if e.beyond {
        let c = cols_walk::next(ids, low);
        return if c == 0 { None } else { Some(c) };
    }
    let q = next_mark(e.low, e.high, low.saturating_sub(1000) as usize)?;
    Some(1001 + q as u16)
}

// CDin for each channel that ends, ascending.
fn put_ends(
    out: &mut [u8],
    from: usize,
    users: &Users,
    channels: &Channels,
    members: &Members,
    gone: u64,
    live: u16,
) -> usize
    requires { from ≤ 4096 }
    ensures { (Puts out.old from (records_of (each (end_at (users_in users.now) (channels_in channels.now members.now) gone live)
        (in_order channels.now.ids))) out.new result) × (result ≤ from + 14336) }
{
    let e = find_ends(channels, gone);
    let mut at = from;
    let mut low: u16 = 0;
    'ids: for _ in 0..channels.ids.len() {
        let Some(c) = next_end(&channels.ids, e, low) else {
            return at;
        };
        let k = kind_of(channels, members, c);
        at = put_ended(out, at, users, gone, live, c, k);
        low = c;
    }
    at
}

// The same; most often no channel is private, role 3, and none ends.
fn put_any_ends(
    out: &mut [u8],
    from: usize,
    users: &Users,
    channels: &Channels,
    members: &Members,
    gone: u64,
    live: u16,
) -> usize
    requires { from ≤ 4096 }
    ensures { (Puts out.old from (records_of (each (end_at (users_in users.now) (channels_in channels.now members.now) gone live)
        (in_order channels.now.ids))) out.new result) × (result ≤ from + 14336) }
{
    if cols_walk::any_is(&channels.kinds, 3) {
        return put_ends(out, from, users, channels, members, gone, live);
    }
    from
}

// TVcf no-such-user to the giver g.
fn put_refusal(out: &mut [u8], at: usize, users: &Users, gone: u64, k: u16, g: u8, r: u8) -> usize
    requires { at ≤ 65535 }
    ensures { Puts out.old at (records_of (to (link (users_in users.now) g)
        (TVcf no_such_user (name (users_in users.now) g) k (status_of (lose_of gone (Giving g r)) g)) ∷ [])) out.new result }
{
    let h = domain_state::token::lose(gone, Holding::Giving(g, r));
    let s = u8::from(domain_state::token::status(h, g));
    let n = u8::from(numbers::Result::NoSuchUser);
    let m = out_messages::token_confirm(Confirm::Give, n, users.name(g), k, s);
    out_records::send(out, at, users.link(g), &m)
}

// The same where the recipient leaves and the giver stays.
fn put_returned(out: &mut [u8], at: usize, users: &Users, gone: u64, k: u16, h: Holding) -> usize
    requires { at ≤ 65535 }
    ensures { Puts out.old at (records_of (returned (users_in users.now) gone k h)) out.new result }
{
    match h {
        Holding::Giving(g, r) => if cols_masks::has(gone, r) && !cols_masks::has(gone, g) {
            put_refusal(out, at, users, gone, k, g, r)
        } else {
            at
        },
        _ => at,
    }
}

// TVcf for each token that returns to its giver, ascending.
fn put_returns(out: &mut [u8], from: usize, users: &Users, tokens: &Tokens, gone: u64) -> usize
    requires { from ≤ 32768 }
    ensures { (Puts out.old from (records_of (each (return_at (users_in users.now) (tokens_in tokens.now) gone) (in_order tokens.now.ids))) out.new result)
        × (result ≤ from + 704) }
{
    let mut at = from;
    let mut low: u16 = 0;
    'ids: for _ in 0..tokens.ids.len() {
        let k = cols_walk::next_where(&tokens.ids, &tokens.states, 3, low);
        if k == 0 {
            return at;
        }
        at = put_returned(out, at, users, gone, k, tokens.state(k));
        low = k;
    }
    at
}

// The same; most often no token is being given, mode 3.
fn put_any_returns(out: &mut [u8], from: usize, users: &Users, tokens: &Tokens, gone: u64) -> usize
    requires { from ≤ 32768 }
    ensures { (Puts out.old from (records_of (each (return_at (users_in users.now) (tokens_in tokens.now) gone) (in_order tokens.now.ids))) out.new result)
        × (result ≤ from + 704) }
{
    if cols_walk::any_is(&tokens.states, 3) {
        return put_returns(out, from, users, tokens, gone);
    }
    from
}

// The users at the places `gone` leave and the connections `live` remain: DUin with the first `count` of the ids, then CDin, then TVcf.
pub fn farewell(
    out: &mut [u8],
    d: &Domain,
    gone: u64,
    live: u16,
    reason: u8,
    list: &[u16; 64],
    count: usize,
) -> usize
    ensures told { Puts out.old 0 (records_of (farewell_of (domain_in d.now) gone live reason (take count list.now))) out.new result }
    ensures few { result ≤ 17200 }
{
    let a = put_first(out, live, reason, list, count);
    let b = put_any_ends(out, a, &d.users, &d.channels, &d.members, gone, live);
    put_any_returns(out, b, &d.users, &d.tokens, gone)
}
