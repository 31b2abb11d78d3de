// The search by value: its four steps, each of which takes it and gives it back, and a run of them.
#![tactic(auto)]

pub mod adjusting;
pub mod running;
pub mod scratch;
pub mod search;
pub mod taking;
mod visits;
