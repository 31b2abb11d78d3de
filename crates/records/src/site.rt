// What a site file says; or why it is refused, and at which byte.
ghost use Rattle.std.specs.Prelude.{◌≤◌};
ghost use Rattle.steps.specs.Refusals.{max_nodes, max_edges};

use crate::complaint::Complaint;

// What an accepted file says; its edges stand in the lent lists.
#[derive(Clone, Copy, Debug, PartialEq, Eq)]
pub struct Head {
    pub nodes: u16,
    pub flag: bool,
    pub budget: u32,
    pub edges: u16,
    ghost few_nodes: { nodes ≤ max_nodes },
    ghost few_edges: { edges ≤ max_edges },
}

#[derive(Clone, Copy, Debug, PartialEq, Eq)]
pub struct Refused {
    pub what: Complaint,
    pub place: usize,
}
