// A list of users: who of them counts, and what each connection hears of its own. Records are sent whole or not at all.
#![tactic(auto)]

ghost use Rattle.std.specs.Prelude.{◌≡◌, List, [], ◌∷◌, ◌++◌, ℕ, ◌+◌, ◌≤◌, ◌<◌, length, take, get_or, set, replicate, if◌then◌else◌};
ghost use Rattle.out_records.specs.Records.{records as records_of};
ghost use Rattle.out_records.specs.Out.{Puts, each_two};
ghost use Rattle.domain.specs.Tables.{Users as UsersOf};
ghost use Rattle.domain.specs.Effects.{settle, answered, delivers};
ghost use Rattle.domain.specs.Channels.{places as places_of, own};
ghost use Rattle.domain_tables.specs.Held.{users_in};
ghost use Rattle.serve_private_tell.specs.Sieve.{counted, sieved, leads, owned_by, says, Begins, own_to, tells};
ghost use Rattle.serve_private_tell.specs.Sieve.{Takes, Housed, Located};

use cols_masks::Mask;
use domain::answer::Answer;
use domain::numbers::Reply;
use domain_tables::Users;

// Whose ids of a list count: of all who are attached, or of the admitted by a mask of places.
#[derive(Clone, Copy)]
pub enum Pick {
    Attached,
    Admitted(u64),
}

// The user at place i counts.
fn counts(k: Pick, i: u8) -> bool
    ensures { result ≡ counted k i }
{
    match k {
        Pick::Attached => true,
        Pick::Admitted(adm) => cols_masks::has(adm, i),
    }
}

// What a list's users are told by the manager of a channel: CAin of both, CEin of the channel.
#[derive(Clone, Copy)]
pub enum Say {
    Admits(u16, u16),
    Expels(u16, u16),
}

// What stands before the users in the record for connection q.
fn put_start(out: &mut [u8], at: usize, s: Say, q: u8, count: u8) -> usize
    requires { at ≤ 65535 }
    ensures { Begins out.old at s q count out.new result × (result ≤ at + 10) }
{
    match s {
        Say::Admits(u, c) => {
            out_records::put_all(out, at, &out_messages::admit_start(q, u, c, count))
        }
        Say::Expels(_, c) => out_records::put_all(out, at, &out_messages::expel_start(q, c, count)),
    }
}

// User u on two octets, where it counts.
fn put_one(out: &mut [u8], at: usize, counts: bool, u: u16) -> usize
    requires { at ≤ 65535 }
    ensures { Puts out.old at (each_two 1001 (if counts then u ∷ [] else [])) out.new result × (result ≤ at + 2) }
{
    if counts {
        return out_records::put_ids(out, at, 1001, &[u]);
    }
    at
}

// What is taken of a list: how many ids, which stand at its start, and the places of their users; the connection of each; and of each connection how many
// of them it has, and where the first of them stands.
#[derive(Drop)]
struct Taken {
    count: usize,
    seats: u64,
    spots: [u8; 64],
    shares: [u8; 16],
    firsts: [u8; 16],
}

impl Taken {
    // Connection q has the user at n of the list; any other number is no connection.
    fn add_share(&mut self, q: u8, n: u8)
        requires { q < 16 → get_or self.old.shares q 0 ≤ 64 }
        ensures shares { self.new.shares ≡ set self.old.shares q (get_or self.old.shares q 0 + 1) }
        ensures firsts { self.new.firsts ≡ set self.old.firsts q (leads (get_or self.old.shares q 0) (get_or self.old.firsts q 0) n) }
        ensures count { self.new.count ≡ self.old.count }
        ensures seats { self.new.seats ≡ self.old.seats }
        ensures spots { self.new.spots ≡ self.old.spots }
    {
        if q < 16 {
            let i = q as usize;
            if self.shares[i] == 0 {
                self.firsts[i] = n;
            }
            self.shares[i] += 1;
        }
    }

    // The id at place i of a list, where its user is found, counts and is not taken yet: it is stored behind those taken. What stands after place i is as it was.
    fn take_one(&mut self, users: &Users, k: Pick, list: &mut [u16], i: usize)
        requires { (i < 64) × (i < length list.old) × (self.old.count ≤ i) × ((q : ℕ) → q < 16 → get_or self.old.shares q 0 ≤ 64) }
        ensures takes { (passed : List ℕ)
            → Takes (users_in users.now) k passed (take self.old.count list.old) self.old.spots self.old.shares self.old.firsts self.old.seats
            → Takes (users_in users.now) k (passed ++ get_or list.old i 0 ∷ []) (take self.new.count list.new) self.new.spots self.new.shares self.new.firsts self.new.seats }
        ensures rest { (j : ℕ) → i < j → get_or list.new j 0 ≡ get_or list.old j 0 }
        ensures length { length list.new ≡ length list.old }
        ensures few { self.new.count ≤ i + 1 }
    {
        let u = list[i];
        let j = cols_find::find(&users.ids, u);
        if j < 64 {
            let seat = j as u8;
            if counts(k, seat) {
                if !cols_masks::has(self.seats, seat) {
                    let n = self.count;
                    let q = users.links[j];
                    list[n] = u;
                    self.spots[n] = q;
                    self.add_share(q, n as u8);
                    self.count = n + 1;
                    self.seats = self.seats.with(seat);
                }
            }
        }
    }

    // Of the first 64 ids of a list those that are picked, each once: each id is looked for once.
    fn take_all(&mut self, users: &Users, k: Pick, list: &mut [u16])
        requires { (self.old.count ≡ 0) × (self.old.seats ≡ 0) × (self.old.shares ≡ replicate 16 0) × (self.old.firsts ≡ replicate 16 0) }
        ensures takes { Takes (users_in users.now) k (take 64 list.old) (take self.new.count list.new) self.new.spots self.new.shares self.new.firsts self.new.seats }
        ensures length { length list.new ≡ length list.old }
        ensures few { (self.new.count ≤ 64) × (self.new.count ≤ length list.old) }
    {
        let m = usize::min(64, list.len());
        for i in 0..m {
            self.take_one(users, k, list, i);
        }
    }

    // The users of connection q in a list, in their order: `count` of them, the first of whom stands at `first`.
    fn put_own(
        &self,
        out: &mut [u8],
        from: usize,
        list: &[u16],
        q: u8,
        first: usize,
        count: u8,
    ) -> usize
        requires { (from ≤ 60000) × (length list.now ≤ 64) × (q < 16) }
        ensures puts { (us : UsersOf) → Located us list.now self.now.spots → owned_by us q (take first list.now) ≡ [] → length (owned_by us q list.now) ≡ count
            → Puts out.old from (each_two 1001 (owned_by us q list.now)) out.new result }
        ensures few { result ≤ from + 128 }
    {
        let end = from + count as usize * 2;
        let mut at = from;
        for i in first..list.len() {
            if at == end {
                return at;
            }
            at = put_one(out, at, self.spots[i] == q, list[i]);
        }
        at
    }

    // What connection q hears: its own ids, if it has any.
    fn tell_one(&self, out: &mut [u8], at: usize, s: Say, list: &[u16], q: u8) -> usize
        requires { (at ≤ 50000) × (length list.now ≤ 64) × (q < 16) }
        ensures puts { (us : UsersOf) → Housed us list.now self.now.spots self.now.shares self.now.firsts
            → Puts out.old at (records_of (own_to us list.now (says s) q)) out.new result }
        ensures few { result ≤ at + 138 }
    {
        let i = q as usize;
        let n = self.shares[i];
        if n == 0 {
            return at;
        }
        let from = put_start(out, at, s, q, n);
        self.put_own(out, from, list, q, self.firsts[i] as usize, n)
    }

    // What every connection hears.
    fn tell_all(&self, out: &mut [u8], s: Say, list: &[u16]) -> usize
        requires { length list.now ≤ 64 }
        ensures puts { (us : UsersOf) → Housed us list.now self.now.spots self.now.shares self.now.firsts
            → Puts out.old 0 (records_of (own us list.now (says s))) out.new result }
        ensures few { result ≤ 2208 }
    {
        let mut at = 0;
        for q in 0u8..16 {
            at = self.tell_one(out, at, s, list, q);
        }
        at
    }

    // The same, where there is room for all of it: 2,208 octets are enough for any. A short room is counted for in a first turn, in which nothing is put.
    fn tell(&self, out: &mut [u8], s: Say, list: &[u16]) -> Answer
        requires { length list.now ≤ 64 }
        ensures { (us : UsersOf) → Housed us list.now self.now.spots self.now.shares self.now.firsts
            → answered {A = Unit {0}} result tt out.new ≡ delivers 0 tt tt (own us list.now (says s)) out.old }
    {
        let room = out.len();
        let mut to = out_records::tried(room, 2208);
        let mut total = 0;
        let mut again = true;
        while again {
            total = self.tell_all(&mut out[..to], s, list);
            again = (to < room) & (total <= room);
            to = room;
        }
        if room < total {
            return Answer {
                reply: Reply::NoRoom,
                sent: 0,
            };
        }
        Answer {
            reply: Reply::Done,
            sent: total,
        }
    }
}

// What a list's users were told, and their places.
#[derive(Clone, Copy)]
pub struct Told {
    pub answer: Answer,
    pub seats: u64,
}

// Those picked of the first 64 ids of a list are told, each connection its own. They are kept in the list itself.
pub fn tell_chosen(users: &Users, k: Pick, s: Say, list: &mut [u16], out: &mut [u8]) -> Told
    ensures { let us = users_in users.now in
        (answered {A = Unit {0}} result.answer tt out.new ≡ settle tt (tells us s (sieved us k (take 64 list.old)) tt) out.old)
        × (result.seats ≡ places_of us (sieved us k (take 64 list.old))) }
{
    let mut taken = Taken {
        count: 0,
        seats: 0,
        spots: [16; 64],
        shares: [0; 16],
        firsts: [0; 16],
    };
    taken.take_all(users, k, list);
    let n = taken.count;
    let mut answer = Answer {
        reply: Reply::Ignored,
        sent: 0,
    };
    if n != 0 {
        answer = taken.tell(out, s, &list[..n]);
    }
    Told {
        answer,
        seats: taken.seats,
    }
}
