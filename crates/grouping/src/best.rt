// The best edges of a new group: its children's edges gathered, the children's own lists forgotten, and the tightest found.
ghost use Rattle.std.specs.Prelude.{◌≡◌, ◌*◌, ◌≤◌};
ghost use Rattle.laws.specs.Run.{for_each};
ghost use Rattle.matching.specs.Graph.{missing};
ghost use Rattle.steps.specs.State.{Progress};
ghost use Rattle.steps.specs.Add.{gather as gather_of, tightest as tightest_of, best_edges as best_edges_of};
ghost use Rattle.numbers.specs.Answers.{Agrees, Answers};
ghost use Rattle.state.specs.Parts.{state_of, sized, size_of};
ghost use Rattle.grouping.specs.Parts.{gathered};
ghost use Rattle.grouping.specs.Rooms.{RoomFits};
ghost use Rattle.state.specs.Keeps.{ButGathered, InLabels};

use crate::consider::consider_child;
use crate::links::Links;
use crate::room::Room;
use edges::graph::Graph;
use numbers::faults::Fault;
use numbers::{Edge, Group, MISSING};
use state::lists::Lists;
use state::pools::Stack;

// Child c's edges are considered; it keeps no list and no best edge.
#[tactic(auto, unfolding(steps::specs::Add::gather, crate::specs::Parts::consider_own))]
pub fn gather(
    g: &Graph,
    lists: &mut Lists,
    links: &mut Links,
    nodes: &mut Stack,
    new: Group,
    c: Group,
) -> Result<(), Fault>
    requires { (links.old.nodes ≡ g.now.nodes) × (sized lists.old ≡ size_of g.now) × (nodes.old.room ≡ 2 * g.now.nodes) }
    ensures said { (at : Progress) → Agrees (gather_of g.now new c (gathered links.old.links (state_of lists.old at))) result (gathered links.new.links (state_of lists.new at)) }
    ensures links { links.new.nodes ≡ links.old.nodes }
    ensures room { nodes.new.room ≡ nodes.old.room }
    ensures size { sized lists.new ≡ sized lists.old }
    ensures others { InLabels lists.old lists.new × ButGathered lists.old.labels lists.new.labels }
{
    consider_child(g, lists, links, nodes, new, c)?;
    lists.clear_best_list(c)?;
    lists.put_best(c.number(), Edge::of(MISSING))
}

// All children in turn.
pub fn gather_all(
    g: &Graph,
    lists: &mut Lists,
    links: &mut Links,
    nodes: &mut Stack,
    new: Group,
    kids: &[u16],
) -> Result<(), Fault>
    requires { (links.old.nodes ≡ g.now.nodes) × (sized lists.old ≡ size_of g.now) × (nodes.old.room ≡ 2 * g.now.nodes) }
    ensures said { (at : Progress) → Agrees (for_each (gather_of g.now new) kids.now (gathered links.old.links (state_of lists.old at))) result (gathered links.new.links (state_of lists.new at)) }
    ensures links { links.new.nodes ≡ links.old.nodes }
    ensures room { nodes.new.room ≡ nodes.old.room }
    ensures size { sized lists.new ≡ sized lists.old }
    ensures others { InLabels lists.old lists.new × ButGathered lists.old.labels lists.new.labels }
{
    for &c in kids {
        gather(g, lists, links, nodes, new, Group::of(c))?;
    }
    Ok(())
}

// Edge e, where there is no best edge or e is tighter; else the best edge.
#[tactic(auto, unfolding(steps::specs::Add::tightest))]
pub fn keener(g: &Graph, lists: &Lists, e: Edge, best: Edge) -> Result<Edge, Fault>
    ensures { Answers (tightest_of g.now lists.now.pairing.lists.duals e best) result }
{
    if best.is_missing() {
        return Ok(e);
    }
    let tight = lists.tighter(g, e, best)?;
    Ok(if tight { e } else { best })
}

// The first of the tightest, or missing.
pub fn tightest(g: &Graph, lists: &Lists, list: &[u16]) -> Result<Edge, Fault>
    ensures { Answers (for_each (tightest_of g.now lists.now.pairing.lists.duals) list.now missing) result }
{
    let mut best = Edge::of(MISSING);
    for &e in list {
        best = keener(g, lists, Edge::of(e), best)?;
    }
    Ok(best)
}

// The list and the best edge of the new group, whose children are in the room's ring.
#[tactic(auto, unfolding(steps::specs::Add::best_edges))]
pub fn best_edges(g: &Graph, lists: &mut Lists, room: &mut Room, new: Group) -> Result<(), Fault>
    requires { RoomFits g.now.nodes room.old × (sized lists.old ≡ size_of g.now) × (g.now.nodes ≤ new) }
    ensures said { (at : Progress) → Agrees (best_edges_of g.now new room.old.ring.kids (state_of lists.old at)) result (state_of lists.new at) }
    ensures size { sized lists.new ≡ sized lists.old }
    ensures fits { RoomFits g.now.nodes room.new }
    ensures others { InLabels lists.old lists.new × ButGathered lists.old.labels lists.new.labels }
    ensures ring { room.new.ring ≡ room.old.ring }
{
    room.links.clear();
    gather_all(
        g,
        lists,
        &mut room.links,
        &mut room.nodes,
        new,
        room.ring.kids(),
    )?;
    lists.put_best_list(new, room.links.edges())?;
    let best = tightest(g, lists, room.links.edges())?;
    lists.put_best(new.number(), best)
}
