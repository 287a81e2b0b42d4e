// Traces in words: names for numbers, and texts put behind those that wait to be written. The words are held against T.125's names in
// specs/Claims.antt.
#![tactic(auto)]

pub mod fields;
pub mod words;
