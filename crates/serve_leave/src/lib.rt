// Leaving: the users listed in a DUrq, or all those of a connection that closes. They leave together, judged on the tables before. Who
// leaves is listed first: their ids in a list that is lent, and their places.
#![tactic(auto)]

ghost use Rattle.std.specs.Prelude.{◌≡◌, List, ℕ, ◌≤◌, ◌<◌, length, take};
ghost use Rattle.cols_spec.specs.Sets.{once};
ghost use Rattle.cols_spec.specs.Places.{in_order};
ghost use Rattle.out_records.specs.Records.{records};
ghost use Rattle.out_records.specs.Out.{Puts};
ghost use Rattle.domain.specs.Effects.{settle, answered};
ghost use Rattle.domain.specs.Leaving.{those_on, farewell as farewell_of, leave as leave_of};
ghost use Rattle.domain_tables.specs.Held.{domain_in, users_in};
ghost use Rattle.serve_leave.specs.Departures.{departs};
ghost use Rattle.serve_leave.specs.Lists.{Leaves, Adds};

use cols_masks::Mask;
use domain::answer::Answer;
use domain::numbers::{Reason, Reply};
use domain_tables::{Domain, Users};

// Why users of a connection leave: it closes, or some are listed in a DUrq, for a reason.
#[derive(Clone, Copy)]
pub enum Departure {
    Closes,
    Detaches(u8),
}

// How many leave: so many ids from the list's start on. And the places of their users.
#[derive(Clone, Copy)]
pub struct Leavers {
    pub count: usize,
    pub seats: u64,
}

// The records of those who leave, put together where there is room for them; how many octets they take: 17,200 are enough for any. A short room is
// counted for in a first turn, in which nothing is put. A loop, and no second call: called at one place the records' function is inlined, and at
// two it took 260 octets of stack more (docs/MEASURED.md).
fn say(out: &mut [u8], d: &Domain, live: u16, reason: u8, list: &[u16; 64], who: Leavers) -> usize
    ensures { let os = records (farewell_of (domain_in d.now) who.seats live reason (take who.count list.now)) in
        (result ≡ length os) × (result ≤ length out.old → Puts out.old 0 os out.new result) × (length out.old < result → out.new ≡ out.old) }
{
    let room = out.len();
    let mut to = out_records::tried(room, 17200);
    let mut total = 0;
    let mut again = true;
    while again {
        total = serve_leave_records::farewell(
            &mut out[..to],
            d,
            who.seats,
            live,
            reason,
            list,
            who.count,
        );
        again = (to < room) & (total <= room);
        to = room;
    }
    total
}

// Those listed leave, and the connections `live` remain: the records, where there is room for them; then the tables.
fn leave(
    d: &mut Domain,
    live: u16,
    reason: u8,
    list: &[u16; 64],
    who: Leavers,
    out: &mut [u8],
) -> Answer
    requires { who.count ≤ 64 }
    ensures { (p : ℕ) (us : List ℕ) → let gone = those_on (domain_in d.old).users p us in
        Leaves (domain_in d.old).users gone list.now who
        → answered result (domain_in d.new) out.new ≡ settle (domain_in d.old) (leave_of (domain_in d.old) live reason gone) out.old }
{
    let total = say(out, d, live, reason, list, who);
    let is_short = out.len() < total;
    if is_short {
        return Answer {
            reply: Reply::NoRoom,
            sent: 0,
        };
    }
    let gone = who.seats;
    let ids = &list[..who.count];
    serve_leave_tables::channels::leave(&d.users, &mut d.channels, &mut d.members, ids, gone, live);
    serve_leave_tables::users::leave(&mut d.users, gone);
    serve_leave_tables::tokens::leave(&mut d.tokens, gone);
    d.links = live;
    Answer {
        reply: Reply::Done,
        sent: total,
    }
}

// DUrq on p, of the first `count` of the ids; or, where p closes, DPum, RJum and loss: all users of p leave, and the reason told is always the same. One
// way for both, so that little stands on the stack. The list lent is worked in.
pub fn depart(
    d: &mut Domain,
    p: u8,
    departure: Departure,
    list: &mut [u16; 64],
    count: usize,
    out: &mut [u8],
) -> Answer
    ensures { answered result (domain_in d.new) out.new
        ≡ settle (domain_in d.old) (departs (domain_in d.old) p departure (take count list.old)) out.old }
{
    let (who, live, reason) = match departure {
        Departure::Closes => {
            let who = all_on(&d.users, p, list);
            (
                who,
                d.links.without(p),
                u8::from(Reason::DomainDisconnected),
            )
        }
        Departure::Detaches(reason) => {
            let who = listed_on(&d.users, p, list, count);
            if who.count == 0 {
                return Answer {
                    reply: Reply::Ignored,
                    sent: 0,
                };
            }
            (who, d.links, reason % 8)
        }
    };
    leave(d, live, reason, list, who, out)
}

// User u behind those listed, where u is attached on p and not one of them: its place is not yet among theirs.
fn add_leaver(users: &Users, p: u8, u: u16, list: &mut [u16; 64], t: Leavers) -> Leavers
    requires { t.count < 64 }
    ensures { Adds (users_in users.now) p u list.old t list.new result }
{
    let Some(seat) = users.attached(p, u) else {
        return t;
    };
    prove!(users.ids[seat as usize] == u);
    if cols_masks::has(t.seats, seat) {
        return t;
    }
    list[t.count] = u;
    Leavers {
        count: t.count + 1,
        seats: t.seats.with(seat),
    }
}

// Of the first `count` listed ids those attached on p, each once, in list order. They are kept in the list itself.
pub fn listed_on(users: &Users, p: u8, list: &mut [u16; 64], count: usize) -> Leavers
    ensures { Leaves (users_in users.now) (those_on (users_in users.now) p (once (take count list.old))) list.new result }
{
    let mut t = Leavers { count: 0, seats: 0 };
    for i in 0..usize::min(count, list.len()) {
        let u = list[i];
        t = add_leaver(users, p, u, list, t);
    }
    t
}

// The users on p, ascending.
pub fn all_on(users: &Users, p: u8, list: &mut [u16; 64]) -> Leavers
    ensures { Leaves (users_in users.now) (those_on (users_in users.now) p (in_order users.now.ids)) list.new result }
{
    let mut t = Leavers { count: 0, seats: 0 };
    let mut low: u16 = 0;
    'ids: for _ in 0..users.ids.len() {
        let u = cols_walk::next_where(&users.ids, &users.links, p, low);
        if u == 0 {
            return t;
        }
        t = add_leaver(users, p, u, list, t);
        low = u;
    }
    t
}
