// The edges of a new group's children, one at a time: those that leave the new group for a label-1 group become links.
ghost use Rattle.std.specs.Prelude.{◌≡◌, [], ◌*◌, ◌/◌, ◌<◌};
ghost use Rattle.laws.specs.Lists.{Each};
ghost use Rattle.laws.specs.Run.{for_each};
ghost use Rattle.steps.specs.State.{Progress};
ghost use Rattle.steps.specs.Add.{consider as consider_of, consider_at as consider_at_of, consider_child as consider_child_of};
ghost use Rattle.numbers.specs.Answers.{Agrees};
ghost use Rattle.state.specs.Parts.{state_of, sized, size_of};
ghost use Rattle.grouping.specs.Parts.{consider_own, at_end};

use crate::links::Links;
use edges::graph::Graph;
use numbers::faults::Fault;
use numbers::{Edge, End, Group, Node};
use state::lists::Lists;
use state::pools::Stack;

// Edge e, if it leaves the new group.
#[tactic(auto, unfolding(steps::specs::Add::consider))]
pub fn consider(
    g: &Graph,
    lists: &Lists,
    links: &mut Links,
    new: Group,
    e: Edge,
) -> Result<(), Fault>
    requires { (links.old.nodes ≡ g.now.nodes) × (sized lists.now ≡ size_of g.now) }
    ensures said { (at : Progress) → Agrees (consider_of g.now (state_of lists.now at) new e links.old.links) result links.new.links }
    ensures size { links.new.nodes ≡ links.old.nodes }
{
    let x = g.edge(e)?;
    let t = lists.top(x.second)?;
    let j = if t == new { lists.top(x.first)? } else { t };
    if j != new {
        links.consider_to(g, lists, j, e)?;
    }
    Ok(())
}

// Each edge of a list in turn.
pub fn consider_edges(
    g: &Graph,
    lists: &Lists,
    links: &mut Links,
    new: Group,
    list: &[u16],
) -> Result<(), Fault>
    requires { (links.old.nodes ≡ g.now.nodes) × (sized lists.now ≡ size_of g.now) }
    ensures said { (at : Progress) → Agrees (for_each (consider_of g.now (state_of lists.now at) new) list.now links.old.links) result links.new.links }
    ensures size { links.new.nodes ≡ links.old.nodes }
{
    for &e in list {
        consider(g, lists, links, new, Edge::of(e))?;
    }
    Ok(())
}

// The edge of end p.
#[tactic(auto, unfolding(crate::specs::Parts::at_end))]
pub fn consider_end(
    g: &Graph,
    lists: &Lists,
    links: &mut Links,
    new: Group,
    p: End,
) -> Result<(), Fault>
    requires { (links.old.nodes ≡ g.now.nodes) × (sized lists.now ≡ size_of g.now) }
    ensures said { (at : Progress) → Agrees (at_end g.now (state_of lists.now at) new p links.old.links) result links.new.links }
    ensures size { links.new.nodes ≡ links.old.nodes }
{
    consider(g, lists, links, new, p.edge())
}

// The edge of each end of a list in turn. No closure joins it with consider_edges: its clause would be longer than this loop.
pub fn consider_ends(
    g: &Graph,
    lists: &Lists,
    links: &mut Links,
    new: Group,
    list: &[u16],
) -> Result<(), Fault>
    requires { (links.old.nodes ≡ g.now.nodes) × (sized lists.now ≡ size_of g.now) }
    ensures said { (at : Progress) → Agrees (for_each (at_end g.now (state_of lists.now at) new) list.now links.old.links) result links.new.links }
    ensures size { links.new.nodes ≡ links.old.nodes }
{
    for &p in list {
        consider_end(g, lists, links, new, End::of(p))?;
    }
    Ok(())
}

// All edges at node v, in order.
#[tactic(auto, using(crate::proofs::ChildLaws::ends))]
pub fn consider_at(
    g: &Graph,
    lists: &Lists,
    links: &mut Links,
    new: Group,
    v: Node,
) -> Result<(), Fault>
    requires { (links.old.nodes ≡ g.now.nodes) × (sized lists.now ≡ size_of g.now) × (v < g.now.nodes) }
    ensures said { (at : Progress) → Agrees (consider_at_of g.now (state_of lists.now at) new v links.old.links) result links.new.links }
    ensures size { links.new.nodes ≡ links.old.nodes }
{
    consider_ends(g, lists, links, new, g.far_ends(v))
}

// All edges at each node of a list in turn.
pub fn consider_nodes(
    g: &Graph,
    lists: &Lists,
    links: &mut Links,
    new: Group,
    list: &[u16],
) -> Result<(), Fault>
    requires { (links.old.nodes ≡ g.now.nodes) × (sized lists.now ≡ size_of g.now) × Each (λ v. v < g.now.nodes) list.now }
    ensures said { (at : Progress) → Agrees (for_each (consider_at_of g.now (state_of lists.now at) new) list.now links.old.links) result links.new.links }
    ensures size { links.new.nodes ≡ links.old.nodes }
{
    for &v in list {
        consider_at(g, lists, links, new, Node::of(v))?;
    }
    Ok(())
}

// All edges at the nodes of child c.
#[tactic(auto, unfolding(steps::specs::Add::consider_child, steps::specs::Leaves::leaves_of, steps::specs::Leaves::leaves_after))]
pub fn consider_leaves(
    g: &Graph,
    lists: &Lists,
    links: &mut Links,
    nodes: &mut Stack,
    new: Group,
    c: Group,
) -> Result<(), Fault>
    requires { (links.old.nodes ≡ g.now.nodes) × (sized lists.now ≡ size_of g.now) × (nodes.old.room ≡ 2 * g.now.nodes) }
    ensures said { (at : Progress) → Agrees (consider_child_of g.now (state_of lists.now at) new c [] links.old.links) result links.new.links }
    ensures size { links.new.nodes ≡ links.old.nodes }
    ensures room { nodes.new.room ≡ nodes.old.room }
{
    nodes.clear();
    lists.leaves(g, c, nodes)?;
    consider_nodes(g, lists, links, new, nodes.entries())
}

// Child c's own list, or all edges of its nodes where it has none.
#[tactic(auto, using(crate::proofs::ChildLaws::children))]
pub fn consider_child(
    g: &Graph,
    lists: &Lists,
    links: &mut Links,
    nodes: &mut Stack,
    new: Group,
    c: Group,
) -> Result<(), Fault>
    requires { (links.old.nodes ≡ g.now.nodes) × (sized lists.now ≡ size_of g.now) × (nodes.old.room ≡ 2 * g.now.nodes) }
    ensures said { (at : Progress) → Agrees (consider_own g.now (state_of lists.now at) new c links.old.links) result links.new.links }
    ensures size { links.new.nodes ≡ links.old.nodes }
    ensures room { nodes.new.room ≡ nodes.old.room }
{
    let own = lists.best_list(c)?;
    if own.is_empty() {
        consider_leaves(g, lists, links, nodes, new, c)?;
    } else {
        consider_edges(g, lists, links, new, own)?;
    }
    Ok(())
}
