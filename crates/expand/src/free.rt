// The children of a group become outermost, and the group's number is free again.
ghost use Rattle.std.specs.Prelude.{◌≡◌, ◌*◌, ◌≤◌};
ghost use Rattle.laws.specs.Run.{for_each};
ghost use Rattle.steps.specs.State.{Progress};
ghost use Rattle.steps.specs.Expand.{bring_top as bring_top_of, keep_child as keep_child_of, free_group as free_group_of, free_child as free_child_of, retire as retire_of, expand_group as expand_group_of, expand_top};
ghost use Rattle.numbers.specs.Answers.{Agrees};
ghost use Rattle.state.specs.Parts.{state_of, sized, size_of};
ghost use Rattle.expand.specs.Parts.{free_children as free_children_of, take_apart as take_apart_of};
ghost use Rattle.state.specs.Keeps.{ButTops, Closed, Expanded, InForest};

use crate::walk::relabel_ring;
use edges::graph::Graph;
use numbers::faults::Fault;
use numbers::{Edge, End, Group, MISSING, Node};
use state::lists::Lists;
use state::pools::Stack;

// These nodes have c as their outermost group.
#[tactic(auto, unfolding(steps::specs::Expand::bring_top))]
fn bring_top(lists: &mut Lists, c: Group, nodes: &[u16]) -> Result<(), Fault>
    ensures said { (at : Progress) → Agrees (for_each (bring_top_of c) nodes.now (state_of lists.old at)) result (state_of lists.new at) }
    ensures size { sized lists.new ≡ sized lists.old }
    ensures kids { lists.new.forest.kids ≡ lists.old.forest.kids }
    ensures others { InForest lists.old lists.new × ButTops lists.old.forest lists.new.forest }
{
    for &v in nodes {
        lists.put_top(Node::of(v), c)?;
    }
    Ok(())
}

// A child group stays a group: its nodes have it as their outermost.
#[tactic(auto, unfolding(steps::specs::Expand::keep_child, steps::specs::Leaves::leaves_of, steps::specs::Leaves::leaves_after))]
fn keep_child(g: &Graph, lists: &mut Lists, nodes: &mut Stack, c: Group) -> Result<(), Fault>
    requires { (sized lists.old ≡ size_of g.now) × (nodes.old.room ≡ 2 * g.now.nodes) }
    ensures said { (at : Progress) → Agrees (keep_child_of g.now c (state_of lists.old at)) result (state_of lists.new at) }
    ensures size { sized lists.new ≡ sized lists.old }
    ensures kids { lists.new.forest.kids ≡ lists.old.forest.kids }
    ensures room { nodes.new.room ≡ nodes.old.room }
    ensures others { InForest lists.old lists.new × ButTops lists.old.forest lists.new.forest }
{
    nodes.clear();
    lists.leaves(g, c, nodes)?;
    bring_top(lists, c, nodes.entries())
}

// Group b is no more, and its number is free.
#[tactic(auto, unfolding(steps::specs::Expand::retire))]
fn retire(g: &Graph, lists: &mut Lists, b: Group) -> Result<(), Fault>
    requires { sized lists.old ≡ size_of g.now }
    ensures said { (at : Progress) → Agrees (retire_of g.now b (state_of lists.old at)) result (state_of lists.new at) }
    ensures size { sized lists.new ≡ sized lists.old }
    ensures kids { lists.new.forest.kids ≡ lists.old.forest.kids }
    ensures others { Closed lists.old lists.new }
{
    lists.put_label(b.number(), MISSING)?;
    lists.put_label_end(b.number(), End::of(MISSING))?;
    lists.clear_children(b)?;
    lists.clear_ring_ends(b)?;
    lists.put_base(b, Node::missing())?;
    lists.put_best(b.number(), Edge::of(MISSING))?;
    lists.free_number(g, b)
}

// A child group: at the end of a stage one with dual 0 is expanded in its turn.
#[cycle(expanding)]
#[tactic(auto, unfolding(steps::specs::Expand::free_group))]
fn free_group(
    g: &Graph,
    lists: &mut Lists,
    nodes: &mut Stack,
    depth: u16,
    last: bool,
    c: Group,
) -> Result<(), Fault>
    requires { (sized lists.old ≡ size_of g.now) × (nodes.old.room ≡ 2 * g.now.nodes) }
    ensures said { (at : Progress) → Agrees (free_group_of g.now (expand_group_of g.now depth last) last c (state_of lists.old at)) result (state_of lists.new at) }
    ensures size { sized lists.new ≡ sized lists.old }
    ensures kids { lists.new.forest.kids ≡ lists.old.forest.kids }
    ensures room { nodes.new.room ≡ nodes.old.room }
    ensures others { Expanded last lists.old lists.new }
{
    if last {
        let d = lists.dual(c.number())?;
        if d == 0 {
            return expand_group(g, lists, nodes, depth, last, c);
        }
    }
    keep_child(g, lists, nodes, c)
}

// Child c becomes outermost.
#[cycle(expanding)]
#[tactic(auto, unfolding(steps::specs::Expand::free_child))]
fn free_child(
    g: &Graph,
    lists: &mut Lists,
    nodes: &mut Stack,
    depth: u16,
    last: bool,
    c: Group,
) -> Result<(), Fault>
    requires { (sized lists.old ≡ size_of g.now) × (nodes.old.room ≡ 2 * g.now.nodes) }
    ensures said { (at : Progress) → Agrees (free_child_of g.now (expand_group_of g.now depth last) last c (state_of lists.old at)) result (state_of lists.new at) }
    ensures size { sized lists.new ≡ sized lists.old }
    ensures kids { lists.new.forest.kids ≡ lists.old.forest.kids }
    ensures room { nodes.new.room ≡ nodes.old.room }
    ensures others { Expanded last lists.old lists.new }
{
    lists.put_parent(c, Group::of(MISSING))?;
    if c.number() < g.nodes() {
        return lists.put_top(Node::of(c.number()), c);
    }
    free_group(g, lists, nodes, depth, last, c)
}

// The children of b become outermost. They are read by their places, which stay while the lists change.
#[cycle(expanding)]
#[tactic(auto, using(crate::proofs::FreeLaws::kids_turns), unfolding(crate::specs::Parts::free_children))]
fn free_children(
    g: &Graph,
    lists: &mut Lists,
    nodes: &mut Stack,
    depth: u16,
    last: bool,
    b: Group,
) -> Result<(), Fault>
    requires { (sized lists.old ≡ size_of g.now) × (nodes.old.room ≡ 2 * g.now.nodes) }
    ensures said { (at : Progress) → Agrees (free_children_of g.now (expand_group_of g.now depth last) last b (state_of lists.old at)) result (state_of lists.new at) }
    ensures size { sized lists.new ≡ sized lists.old }
    ensures kids { lists.new.forest.kids ≡ lists.old.forest.kids }
    ensures room { nodes.new.room ≡ nodes.old.room }
    ensures others { Expanded last lists.old lists.new }
{
    let m = lists.child_count(b)?;
    for k in 0..m {
        let c = lists.child_at(b, k);
        free_child(g, lists, nodes, depth, last, c)?;
    }
    Ok(())
}

// Group b, whose child groups are expanded at most `depth` deep.
#[cycle(expanding)]
#[tactic(auto, unfolding(crate::specs::Parts::take_apart))]
fn take_apart(
    g: &Graph,
    lists: &mut Lists,
    nodes: &mut Stack,
    depth: u16,
    last: bool,
    b: Group,
) -> Result<(), Fault>
    requires { (sized lists.old ≡ size_of g.now) × (nodes.old.room ≡ 2 * g.now.nodes) }
    ensures said { (at : Progress) → Agrees (take_apart_of g.now (expand_group_of g.now depth last) last b (state_of lists.old at)) result (state_of lists.new at) }
    ensures size { sized lists.new ≡ sized lists.old }
    ensures kids { lists.new.forest.kids ≡ lists.old.forest.kids }
    ensures room { nodes.new.room ≡ nodes.old.room }
    ensures others { Expanded last lists.old lists.new }
{
    free_children(g, lists, nodes, depth, last, b)?;
    let l = lists.label(b.number())?;
    if !last && l == 2 {
        relabel_ring(g, lists, nodes, b)?;
    }
    retire(g, lists, b)
}

// The same, where groups nest at most `depth` deep.
#[cycle(expanding)]
#[tactic(auto, using(crate::proofs::FreeLaws::levels))]
fn expand_group(
    g: &Graph,
    lists: &mut Lists,
    nodes: &mut Stack,
    depth: u16,
    last: bool,
    b: Group,
) -> Result<(), Fault>
    requires { (sized lists.old ≡ size_of g.now) × (nodes.old.room ≡ 2 * g.now.nodes) }
    ensures said { (at : Progress) → Agrees (expand_group_of g.now depth last b (state_of lists.old at)) result (state_of lists.new at) }
    ensures size { sized lists.new ≡ sized lists.old }
    ensures kids { lists.new.forest.kids ≡ lists.old.forest.kids }
    ensures room { nodes.new.room ≡ nodes.old.room }
    ensures others { Expanded last lists.old lists.new }
{
    if depth == 0 {
        return Err(Fault);
    }
    take_apart(g, lists, nodes, depth - 1, last, b)
}

// Group b is taken apart, at the end of a stage where `last`. Nodes is room for 2n.
#[tactic(auto, unfolding(steps::specs::Expand::expand_top))]
pub fn expand(
    g: &Graph,
    lists: &mut Lists,
    nodes: &mut Stack,
    last: bool,
    b: Group,
) -> Result<(), Fault>
    requires { (sized lists.old ≡ size_of g.now) × (nodes.old.room ≡ 2 * g.now.nodes) }
    ensures said { (at : Progress) → Agrees (expand_top g.now last b (state_of lists.old at)) result (state_of lists.new at) }
    ensures size { sized lists.new ≡ sized lists.old }
    ensures room { nodes.new.room ≡ nodes.old.room }
    ensures others { Expanded last lists.old lists.new }
{
    expand_group(g, lists, nodes, g.nodes(), last, b)
}
