// The parts of the four steps that join nothing: opening a stage, looking at neighbours, the amount of a dual adjustment and its moves.
#![tactic(auto)]

pub mod delta;
pub mod follow;
pub mod keep;
pub mod look;
pub mod open;
pub mod shift;
