// The tables once some users have left, and some connections: each place judged on the tables before.
#![tactic(auto)]

pub mod channels;
pub mod tokens;
pub mod users;
