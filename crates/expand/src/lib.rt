// An outermost group is taken apart: its children become outermost and, within a stage, get labels anew.
#![tactic(auto)]

pub mod free;
mod relabel;
mod walk;
