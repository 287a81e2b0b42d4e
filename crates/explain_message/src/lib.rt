// Messages in words.
#![tactic(auto)]

pub mod message;
