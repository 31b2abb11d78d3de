// A group added: its two paths and the ring that they make, what it takes in, and the best edges that leave it.
#![tactic(auto)]

pub mod add;
mod best;
mod consider;
mod links;
mod path;
mod ring;
pub mod room;
mod settle;
mod trace;
