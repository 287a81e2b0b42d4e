// One channel: its kind, when it ends, and who may join.
ghost use Rattle.std.specs.Prelude.{◌≡◌};
ghost use Rattle.domain.specs.Cells.{channel_of};
ghost use Rattle.domain.specs.Tables.{lapses as lapses_of};
ghost use Rattle.domain.specs.Channels.{may as may_of};
ghost use Rattle.domain.specs.Numbers.{result_number};

use domain::channel::{Channel, Kind};
use domain::numbers::Result;

// A channel of a kind with these connections joined.
#[tactic(auto, unfolding(domain::specs::Cells::channel_of))]
pub fn new_channel(k: Kind, marks: u16) -> Channel
    ensures { result ≡ channel_of k marks }
{
    let (role, chair, guests) = match k {
        Kind::Static => (1, 0, 0),
        Kind::User => (2, 0, 0),
        Kind::Private(g, us) => (3, g, us),
        Kind::Assigned => (4, 0, 0),
    };
    Channel {
        role,
        chair,
        guests,
        marks,
    }
}

// A static or assigned channel ends with nobody joined.
#[tactic(auto, unfolding(domain::specs::Tables::lapses))]
pub fn lapses(k: Kind) -> bool
    ensures { result ≡ lapses_of k }
{
    matches!(k, Kind::Static | Kind::Assigned)
}

// May user u, at place i, join channel c of this kind.
#[tactic(auto, unfolding(domain::specs::Channels::may))]
pub fn may_join(k: Kind, c: u16, u: u16, i: u8) -> Result
    ensures { result_number result ≡ may_of k c u i }
{
    match k {
        Kind::User => if c == u {
            Result::Successful
        } else {
            Result::OtherUserId
        },
        Kind::Private(g, us) => if g == i || cols_masks::has(us, i) {
            Result::Successful
        } else {
            Result::NotAdmitted
        },
        Kind::Static | Kind::Assigned => Result::Successful,
    }
}
