// What a new group takes in: its label, label end and dual, and the nodes of its children.
ghost use Rattle.std.specs.Prelude.{ℕ, ◌≡◌, ◌*◌};
ghost use Rattle.laws.specs.Run.{for_each};
ghost use Rattle.steps.specs.State.{Progress};
ghost use Rattle.steps.specs.Add.{settle as settle_of, take_in as take_in_of};
ghost use Rattle.numbers.specs.Answers.{Agrees};
ghost use Rattle.state.specs.Parts.{state_of, sized, size_of};
ghost use Rattle.grouping.specs.Parts.{take_nodes as take_nodes_of};
ghost use Rattle.state.specs.Keeps.{Settled, TakenIn};
ghost use Rattle.numbers.specs.Near.{Near};

use edges::graph::Graph;
use numbers::faults::{Fault, must};
use numbers::{Group, Node};
use state::lists::Lists;
use state::pools::Stack;

// The new group has label 1, through the end that gave it to the group first, and dual 0.
#[tactic(auto, unfolding(steps::specs::Add::settle))]
pub fn settle(lists: &mut Lists, new: Group, first: Group) -> Result<(), Fault>
    ensures said { (at : Progress) → Agrees (settle_of new first (state_of lists.old at)) result (state_of lists.new at) }
    ensures size { sized lists.new ≡ sized lists.old }
    ensures others { Settled lists.old lists.new }
    ensures near { (k : ℕ) → Near k lists.old.pairing.lists.duals → Near k lists.new.pairing.lists.duals }
{
    let l = lists.label(first.number())?;
    must(l == 1)?;
    lists.put_label(new.number(), 1)?;
    let e = lists.label_end(first)?;
    lists.put_label_end(new.number(), e)?;
    lists.put_dual(new.number(), 0)
}

// Node v is queued if it had label 2, and its outermost group is the new one.
#[tactic(auto, unfolding(steps::specs::Add::take_in))]
pub fn take_in(g: &Graph, lists: &mut Lists, new: Group, v: Node) -> Result<(), Fault>
    requires { sized lists.old ≡ size_of g.now }
    ensures said { (at : Progress) → Agrees (take_in_of g.now new v (state_of lists.old at)) result (state_of lists.new at) }
    ensures size { sized lists.new ≡ sized lists.old }
    ensures others { TakenIn lists.old lists.new }
{
    let t = lists.top(v)?;
    let l = lists.label(t.number())?;
    if l == 2 {
        lists.enqueue(g, v)?;
    }
    lists.put_top(v, new)
}

pub fn take_all(g: &Graph, lists: &mut Lists, new: Group, nodes: &[u16]) -> Result<(), Fault>
    requires { sized lists.old ≡ size_of g.now }
    ensures said { (at : Progress) → Agrees (for_each (take_in_of g.now new) nodes.now (state_of lists.old at)) result (state_of lists.new at) }
    ensures size { sized lists.new ≡ sized lists.old }
    ensures others { TakenIn lists.old lists.new }
{
    for &v in nodes {
        take_in(g, lists, new, Node::of(v))?;
    }
    Ok(())
}

// The nodes of the new group.
#[tactic(auto, unfolding(crate::specs::Parts::take_nodes, steps::specs::Leaves::leaves_of, steps::specs::Leaves::leaves_after))]
pub fn take_nodes(g: &Graph, lists: &mut Lists, new: Group, nodes: &mut Stack) -> Result<(), Fault>
    requires { (sized lists.old ≡ size_of g.now) × (nodes.old.room ≡ 2 * g.now.nodes) }
    ensures said { (at : Progress) → Agrees (take_nodes_of g.now new (state_of lists.old at)) result (state_of lists.new at) }
    ensures size { sized lists.new ≡ sized lists.old }
    ensures room { nodes.new.room ≡ nodes.old.room }
    ensures others { TakenIn lists.old lists.new }
{
    nodes.clear();
    lists.leaves(g, new, nodes)?;
    take_all(g, lists, new, nodes.entries())
}
