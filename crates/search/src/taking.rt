// Taking a node from the queue.
ghost use Rattle.std.specs.Prelude.{◌≡◌, false};
ghost use Rattle.matching.specs.Graph.{is_group};
ghost use Rattle.steps.specs.State.{Progress};
ghost use Rattle.steps.specs.Steps.{is_closing, take_node as take_node_of};
ghost use Rattle.state.specs.Parts.{state_of, sized, size_of};
ghost use Rattle.search.specs.Visits.{Visits, taken};

use crate::scratch::Scratch;
use crate::visits::visit_all;
use edges::graph::Graph;
use numbers::Node;
use numbers::faults::{Fault, must};
use state::lists::Lists;

// Node v, which has left the queue, is of a label-1 group: its neighbours are visited.
#[tactic(auto, unfolding(crate::specs::Visits::taken))]
fn visit_from(g: &Graph, lists: &mut Lists, scratch: &mut Scratch, v: Node) -> Result<bool, Fault>
    requires { (sized lists.old ≡ size_of g.now) × (scratch.old ≡ g.now.nodes) }
    ensures said { (at : Progress) → is_closing at.phase ≡ false → Visits (taken g.now v (state_of lists.old at)) result lists.new at }
    ensures size { sized lists.new ≡ sized lists.old }
    ensures room { scratch.new ≡ scratch.old }
    ensures free { lists.new.forest.free_places ≡ lists.old.forest.free_places }
{
    let t = lists.top(v)?;
    let l = lists.label(t.number())?;
    must(l == 1)?;
    visit_all(g, lists, scratch, v, g.far_ends(v))
}

// The last node of the queue.
#[tactic(auto, using(crate::proofs::VisitLaws::take_lost))]
pub fn take_node(g: &Graph, lists: &mut Lists, scratch: &mut Scratch) -> Result<bool, Fault>
    requires { (sized lists.old ≡ size_of g.now) × (scratch.old ≡ g.now.nodes) }
    ensures said { (at : Progress) → is_closing at.phase ≡ false → Visits (take_node_of is_group g.now (state_of lists.old at)) result lists.new at }
    ensures size { sized lists.new ≡ sized lists.old }
    ensures room { scratch.new ≡ scratch.old }
    ensures free { lists.new.forest.free_places ≡ lists.old.forest.free_places }
{
    let v = lists.take_queued()?;
    visit_from(g, lists, scratch, v)
}
