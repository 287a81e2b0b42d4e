// A trace comes in and lines go out, by large pieces: few calls of the system for many frames.
#![tactic(auto)]

pub mod hexadecimal;
pub mod input;
pub mod lines;
