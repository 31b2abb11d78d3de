// The graph that is searched, and what the search reads of it: the ends of its edges, slacks, the neighbours of each node.
#![tactic(auto)]

pub mod graph;
pub mod neighbours;
