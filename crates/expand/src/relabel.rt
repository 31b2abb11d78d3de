// A label-2 group is expanded within a stage: a child gets its label anew.
ghost use Rattle.std.specs.Prelude.{◌≡◌, ◌*◌};
ghost use Rattle.steps.specs.State.{Progress};
ghost use Rattle.steps.specs.Expand.{unlabel as unlabel_of, relabel_base as relabel_base_of, first_labelled as first_labelled_of, relabel_from as relabel_from_of, relabel_reached as relabel_reached_of};
ghost use Rattle.numbers.specs.Answers.{Agrees, Answers};
ghost use Rattle.state.specs.Parts.{state_of, sized, size_of};
ghost use Rattle.expand.specs.Parts.{pass_on as pass_on_of, onward_child as onward_child_of};
ghost use Rattle.state.specs.Keeps.{Relabelled};

use edges::graph::Graph;
use numbers::faults::{Fault, must, present};
use numbers::{Edge, End, Group, MISSING, Node};
use state::lists::Lists;
use state::pools::Stack;

// Label 0 again for the node beside end p.
#[tactic(auto, unfolding(steps::specs::Expand::unlabel))]
pub(crate) fn unlabel(g: &Graph, lists: &mut Lists, p: End) -> Result<(), Fault>
    ensures said { (at : Progress) → Agrees (unlabel_of g.now p (state_of lists.old at)) result (state_of lists.new at) }
    ensures size { sized lists.new ≡ sized lists.old }
    ensures kids { lists.new.forest.kids ≡ lists.old.forest.kids }
    ensures others { Relabelled lists.old lists.new }
{
    let w = g.endpoint(p.beside())?;
    lists.put_label(w.number(), 0)
}

// The base child gets label 2 through end p, and passes none to its mate.
#[tactic(auto, unfolding(steps::specs::Expand::relabel_base))]
pub(crate) fn relabel_base(g: &Graph, lists: &mut Lists, base: Group, p: End) -> Result<(), Fault>
    ensures said { (at : Progress) → Agrees (relabel_base_of g.now base p (state_of lists.old at)) result (state_of lists.new at) }
    ensures size { sized lists.new ≡ sized lists.old }
    ensures kids { lists.new.forest.kids ≡ lists.old.forest.kids }
    ensures others { Relabelled lists.old lists.new }
{
    let v = g.endpoint(p.beside())?;
    lists.put_label(v.number(), 2)?;
    lists.put_label(base.number(), 2)?;
    lists.put_label_end(v.number(), p)?;
    lists.put_label_end(base.number(), p)?;
    lists.put_best(base.number(), Edge::of(MISSING))
}

// The first node with a label, or else the last; 0 where there is none.
#[tactic(auto, unfolding(steps::specs::Expand::first_labelled))]
fn first_labelled(lists: &Lists, nodes: &[u16]) -> Result<Node, Fault>
    ensures { (at : Progress) → Answers (first_labelled_of (state_of lists.now at) 0 nodes.now) result }
{
    let mut v = 0;
    for &x in nodes {
        let l = lists.label(x)?;
        present(l)?;
        if l != 0 {
            return Ok(Node::of(x));
        }
        v = x;
    }
    Ok(Node::of(v))
}

// The mate of the base of child c loses its label, and node v of c gets label 2 through the end that reached it.
#[tactic(auto, unfolding(crate::specs::Parts::pass_on))]
fn pass_on(g: &Graph, lists: &mut Lists, c: Group, v: Node) -> Result<(), Fault>
    requires { sized lists.old ≡ size_of g.now }
    ensures said { (at : Progress) → Agrees (pass_on_of g.now c v (state_of lists.old at)) result (state_of lists.new at) }
    ensures size { sized lists.new ≡ sized lists.old }
    ensures kids { lists.new.forest.kids ≡ lists.old.forest.kids }
    ensures others { Relabelled lists.old lists.new }
{
    let m = lists.base_mate(c)?;
    present(m.number())?;
    let u = g.endpoint(m)?;
    lists.put_label(u.number(), 0)?;
    let p = lists.label_end(v.alone())?;
    lists.label_two(g, v, p)
}

// Node v of child c was reached from outside: the child gets label 2 through the end that reached v.
#[tactic(auto, unfolding(steps::specs::Expand::relabel_from))]
fn relabel_from(g: &Graph, lists: &mut Lists, c: Group, v: Node) -> Result<(), Fault>
    requires { sized lists.old ≡ size_of g.now }
    ensures said { (at : Progress) → Agrees (relabel_from_of g.now c v (state_of lists.old at)) result (state_of lists.new at) }
    ensures size { sized lists.new ≡ sized lists.old }
    ensures kids { lists.new.forest.kids ≡ lists.old.forest.kids }
    ensures others { Relabelled lists.old lists.new }
{
    let l = lists.label(v.number())?;
    must(l == 2)?;
    let t = lists.top(v)?;
    must(t == c)?;
    lists.put_label(v.number(), 0)?;
    pass_on(g, lists, c, v)
}

// A child whose nodes may have been reached from outside.
#[tactic(auto, unfolding(steps::specs::Expand::relabel_reached, steps::specs::Leaves::leaves_of, steps::specs::Leaves::leaves_after))]
fn relabel_reached(g: &Graph, lists: &mut Lists, nodes: &mut Stack, c: Group) -> Result<(), Fault>
    requires { (sized lists.old ≡ size_of g.now) × (nodes.old.room ≡ 2 * g.now.nodes) }
    ensures said { (at : Progress) → Agrees (relabel_reached_of g.now c (state_of lists.old at)) result (state_of lists.new at) }
    ensures size { sized lists.new ≡ sized lists.old }
    ensures kids { lists.new.forest.kids ≡ lists.old.forest.kids }
    ensures room { nodes.new.room ≡ nodes.old.room }
    ensures others { Relabelled lists.old lists.new }
{
    nodes.clear();
    lists.leaves(g, c, nodes)?;
    let v = first_labelled(lists, nodes.entries())?;
    let found = lists.label(v.number())?;
    if found != 0 {
        relabel_from(g, lists, c, v)?;
    }
    Ok(())
}

// A child that has label 1 by now is left as it is.
#[tactic(auto, unfolding(crate::specs::Parts::onward_child))]
pub(crate) fn onward_child(
    g: &Graph,
    lists: &mut Lists,
    nodes: &mut Stack,
    c: Group,
) -> Result<(), Fault>
    requires { (sized lists.old ≡ size_of g.now) × (nodes.old.room ≡ 2 * g.now.nodes) }
    ensures said { (at : Progress) → Agrees (onward_child_of g.now c (state_of lists.old at)) result (state_of lists.new at) }
    ensures size { sized lists.new ≡ sized lists.old }
    ensures kids { lists.new.forest.kids ≡ lists.old.forest.kids }
    ensures room { nodes.new.room ≡ nodes.old.room }
    ensures others { Relabelled lists.old lists.new }
{
    let l = lists.label(c.number())?;
    if l != 1 {
        relabel_reached(g, lists, nodes, c)?;
    }
    Ok(())
}
