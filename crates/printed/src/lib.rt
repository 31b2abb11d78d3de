// The printed answer, written into a lent buffer. A buffer that is too short holds as much of the text as it has room for.
#![tactic(auto)]

mod answer;
pub mod pair;
mod pairs;
mod putting;
pub mod text;
