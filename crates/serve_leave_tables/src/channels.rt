// The channels once some users have left, and some connections.
ghost use Rattle.std.specs.Prelude.{◌≡◌, ◌<◌, get_or, set};
ghost use Rattle.cols_spec.specs.Sets.{member, ids_above, with, meet, connections, seats};
ghost use Rattle.domain.specs.Tables.{hosts, sweep_channels};
ghost use Rattle.domain_tables.specs.Held.{channels_in, users_in};
ghost use Rattle.serve_leave_tables.specs.Fates.{fate_by, ends_by, guests_left, marks_left};

use cols_masks::Mask;
use domain_tables::{Channels, Members, Users};

// Channel c is the user's id of one of those listed. Most ids are among the 64 that have a mark; another is looked for only where the channel
// is a user's, role 2, since no other ends by its id.
fn is_listed(low: u64, list: &[u16], role: u8, c: u16) -> bool
    requires { low ≡ ids_above 1000 list.now }
    ensures { role ≡ 2 → result ≡ member c list.now }
{
    if (1000 < c) & (c < 1065) {
        return cols_masks::has(low, (c - 1001) as u8);
    }
    if role != 2 {
        return false;
    }
    cols_walk::member(list, c)
}

// A channel of this role and chair, whose id is listed or not, ends; m are the connections that are left to it. All is looked at, with no branch
// between.
#[tactic(auto, unfolding(crate::specs::Fates::ends_by))]
fn ends(role: u8, chair: u8, listed: bool, gone: u64, m: u16) -> bool
    ensures { result ≡ ends_by role chair listed gone m }
{
    ((role == 2) & listed)
        | ((role == 3) & cols_masks::has(gone, chair))
        | ((role != 2) & (role != 3) & (m == 0))
}

// The connections of a channel that stays: a private one's only with the manager or an admitted user. Where none is joined none is sought.
#[tactic(auto, using(cols_spec::proofs::Marks::meet_none))]
fn links_left(users: &Users, chair: u8, guests: u64, m: u16) -> u16
    ensures { result ≡ meet connections m (hosts (users_in users.now) (with seats guests chair)) }
{
    if m == 0 {
        return 0;
    }
    m.meet(users.hosts(guests.with(chair)))
}

// The channel at place j stays: its connections, and of a private one the admitted.
#[tactic(auto, unfolding(crate::specs::Fates::guests_left, crate::specs::Fates::marks_left))]
fn stay(users: &Users, members: &mut Members, role: u8, chair: u8, gone: u64, m: u16, j: usize)
    requires { j < 128 }
    ensures admitted { members.new.admitted ≡ set members.old.admitted j (guests_left role (get_or members.old.admitted j 0) gone) }
    ensures joined { members.new.joined ≡ set members.old.joined j
        (marks_left (users_in users.now) role chair (guests_left role (get_or members.old.admitted j 0) gone) m) }
{
    if role == 3 {
        let let_in = members.admitted[j].minus(gone);
        members.admitted[j] = let_in;
        members.joined[j] = links_left(users, chair, let_in, m);
        return;
    }
    members.joined[j] = m;
}

// The users listed leave, `gone` are places, and the connections `live` remain.
pub fn leave(
    users: &Users,
    channels: &mut Channels,
    members: &mut Members,
    list: &[u16],
    gone: u64,
    live: u16,
)
    ensures { channels_in channels.new members.new
        ≡ sweep_channels (fate_by (users_in users.now) list.now gone live) (channels_in channels.old members.old) }
{
    let low = cols_walk::id_marks(list);
    let mut j = cols_walk::used_from(&channels.ids, 0);
    while j < 128 {
        let role = channels.kinds[j];
        let chair = channels.managers[j];
        let m = members.joined[j].meet(live);
        let listed = is_listed(low, list, role, channels.ids[j]);
        if ends(role, chair, listed, gone, m) {
            channels.end(members, j);
        } else {
            stay(users, members, role, chair, gone, m, j);
        }
        j = cols_walk::used_from(&channels.ids, j + 1);
    }
}
