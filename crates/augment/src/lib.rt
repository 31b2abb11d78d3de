// Augmenting: from each end of an edge between two trees, back to the root, matched and unmatched edges change places.
#![tactic(auto)]

ghost use Rattle.std.specs.Prelude.{◌≡◌};
ghost use Rattle.matching.specs.Graph.{is_group};
ghost use Rattle.steps.specs.Augment.{augment_matching as augment_matching_of};
ghost use Rattle.steps.specs.State.{Progress};
ghost use Rattle.numbers.specs.Answers.{Agrees};
ghost use Rattle.state.specs.Parts.{state_of, sized};
ghost use Rattle.state.specs.Keeps.{Turned};

mod mates;
mod trail;
mod turn;

use crate::mates::mates_pass;
use crate::trail::match_trail;
use edges::graph::Graph;
use numbers::Edge;
use numbers::faults::{Fault, must};
use state::lists::Lists;

// The matching is augmented along both halves of the path over edge e; afterwards each mate names back.
#[tactic(auto, unfolding(steps::specs::Augment::augment_matching))]
pub fn augment_matching(g: &Graph, lists: &mut Lists, e: Edge) -> Result<(), Fault>
    ensures said { (at : Progress) → Agrees (augment_matching_of is_group g.now e (state_of lists.old at)) result (state_of lists.new at) }
    ensures size { sized lists.new ≡ sized lists.old }
    ensures others { Turned lists.old lists.new }
{
    let x = g.edge(e)?;
    match_trail(g, lists, x.first, e.second_end())?;
    match_trail(g, lists, x.second, e.first_end())?;
    must(mates_pass(g, lists))
}
