// The domain as C keeps it: its limits, its open connections and its tables. A table is one array of numbers for each part of a place. Any contents are
// taken.
#![tactic(auto)]

pub mod channels;
pub mod tokens;
pub mod users;

ghost use Rattle.std.specs.Prelude.{◌≡◌, true, ◌<◌};
ghost use Rattle.cols_spec.specs.Places.{used};
ghost use Rattle.domain.specs.Tables.{at_limit};

pub use channels::{Channels, Members};
use domain::Limits;
pub use tokens::Tokens;
pub use users::Users;

// The fields lie as those of `struct ladlestorm_domain` do (include/ladlestorm.h): so the columns of the channels are in two structs.
#[repr(C)]
#[derive(Clone, Copy)]
pub struct Domain {
    pub limits: Limits,
    // The open connections: bit p for connection p.
    pub links: u16,
    pub users: Users,
    pub channels: Channels,
    pub members: Members,
    pub tokens: Tokens,
}

// The last place is free, and the limit lets all be in use: so most often in a domain of the largest limits, and then nothing needs to be counted.
fn last_free(limit: u8, ids: &[u16]) -> bool
    ensures { result ≡ true → used ids.now < limit }
{
    let n = ids.len();
    if n == 0 {
        return false;
    }
    if (limit as usize) < n {
        return false;
    }
    ids[n - 1] == 0
}

// So many places are in use that the limit is reached.
pub fn at_limit(limit: u8, ids: &[u16]) -> bool
    ensures { result ≡ at_limit limit ids.now }
{
    if last_free(limit, ids) {
        return false;
    }
    limit as usize <= cols_find::used(ids)
}
