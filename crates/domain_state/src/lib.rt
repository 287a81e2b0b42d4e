// What stands at one place of a table, and what one request makes of it: the functions of the machine that look at no table.
#![tactic(auto)]

pub mod channel;
pub mod token;
