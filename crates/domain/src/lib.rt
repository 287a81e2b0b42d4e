// What stands at a place of a table, and what an event is answered with.
#![tactic(auto)]

pub mod answer;
pub mod channel;
pub mod numbers;
pub mod token;

// The start limits. They lie as those of the struct for C do.
#[repr(C)]
#[derive(Clone, Copy)]
pub struct Limits {
    pub channels: u8,
    pub users: u8,
    pub tokens: u8,
}
