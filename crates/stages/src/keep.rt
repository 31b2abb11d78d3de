// What is kept of an edge that is passed: the node that it reaches, or the edge itself as the best one yet.
ghost use Rattle.std.specs.Prelude.{◌≡◌};
ghost use Rattle.steps.specs.State.{Progress};
ghost use Rattle.steps.specs.Steps.{reach as reach_of, keep_best as keep_best_of, keep_edge as keep_edge_of};
ghost use Rattle.numbers.specs.Answers.{Agrees};
ghost use Rattle.state.specs.Parts.{state_of, sized};
ghost use Rattle.state.specs.Keeps.{ButBest, ButReached, InLabels};

use edges::graph::Graph;
use numbers::faults::{Fault, must};
use numbers::{Edge, End, Node};
use state::lists::Lists;

// The node that an edge leads to, the label of its outermost group and its own.
#[derive(Clone, Copy, Debug, PartialEq, Eq)]
pub struct Met {
    pub node: Node,
    pub group_label: u16,
    pub label: u16,
}

// A node of a label-2 group is reached for the first time.
#[tactic(auto, unfolding(steps::specs::Steps::reach))]
pub fn reach(lists: &mut Lists, w: Node, p: End) -> Result<(), Fault>
    ensures said { (at : Progress) → Agrees (reach_of w p (state_of lists.old at)) result (state_of lists.new at) }
    ensures size { sized lists.new ≡ sized lists.old }
    ensures kids { lists.new.forest.kids ≡ lists.old.forest.kids }
    ensures others { InLabels lists.old lists.new × ButReached lists.old.labels lists.new.labels }
{
    let t = lists.top(w)?;
    let l = lists.label(t.number())?;
    must(l == 2)?;
    lists.put_label(w.number(), 2)?;
    lists.put_label_end(w.number(), p.beside())
}

// The edge e of slack k is the best one yet at node or group i.
#[tactic(auto, unfolding(steps::specs::Steps::keep_best))]
fn keep_best(g: &Graph, lists: &mut Lists, i: u16, e: Edge, k: i64) -> Result<(), Fault>
    ensures said { (at : Progress) → Agrees (keep_best_of g.now i e k (state_of lists.old at)) result (state_of lists.new at) }
    ensures size { sized lists.new ≡ sized lists.old }
    ensures kids { lists.new.forest.kids ≡ lists.old.forest.kids }
    ensures others { InLabels lists.old lists.new × ButBest lists.old.labels lists.new.labels }
{
    let b = lists.best(i)?;
    if b.is_missing() {
        return lists.put_best(i, e);
    }
    let d = lists.slack(g, b)?;
    if k < d {
        lists.put_best(i, e)?;
    }
    Ok(())
}

// The edge e is not allowed: it is kept for the group of v, or for the free node that it leads to.
#[tactic(auto, unfolding(steps::specs::Steps::keep_edge))]
pub fn keep_edge(
    g: &Graph,
    lists: &mut Lists,
    v: Node,
    met: Met,
    e: Edge,
    k: i64,
) -> Result<(), Fault>
    ensures said { (at : Progress) → Agrees (keep_edge_of g.now v met.node e met.group_label met.label k (state_of lists.old at)) result (state_of lists.new at) }
    ensures size { sized lists.new ≡ sized lists.old }
    ensures kids { lists.new.forest.kids ≡ lists.old.forest.kids }
    ensures others { InLabels lists.old lists.new × ButBest lists.old.labels lists.new.labels }
{
    if met.group_label == 1 {
        let b = lists.top(v)?;
        keep_best(g, lists, b.number(), e, k)?;
    } else if met.label == 0 {
        keep_best(g, lists, met.node.number(), e, k)?;
    }
    Ok(())
}
