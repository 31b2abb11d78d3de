// What follows an adjustment of type 2 or 3: an edge is allowed, and its end in a label-1 group is queued.
ghost use Rattle.std.specs.Prelude.{◌≡◌};
ghost use Rattle.matching.specs.Graph.{edge};
ghost use Rattle.steps.specs.State.{Progress};
ghost use Rattle.steps.specs.Adjust.{resume as resume_of, labelled_end as labelled_end_of, follow2, follow3};
ghost use Rattle.numbers.specs.Answers.{Answers, Agrees};
ghost use Rattle.state.specs.Parts.{state_of, sized, size_of};
ghost use Rattle.state.specs.Keeps.{ButFollowed, ButQueue, InLabels};

use edges::graph::{EdgeAt, Graph};
use numbers::faults::{Fault, must};
use numbers::{Edge, Node};
use state::lists::Lists;

// Node v, of a label-1 group, is queued.
#[tactic(auto, unfolding(steps::specs::Adjust::resume))]
fn resume(g: &Graph, lists: &mut Lists, v: Node) -> Result<(), Fault>
    requires { sized lists.old ≡ size_of g.now }
    ensures said { (at : Progress) → Agrees (resume_of g.now v (state_of lists.old at)) result (state_of lists.new at) }
    ensures size { sized lists.new ≡ sized lists.old }
    ensures kids { lists.new.forest.kids ≡ lists.old.forest.kids }
    ensures others { InLabels lists.old lists.new × ButQueue lists.old.labels lists.new.labels }
{
    let t = lists.top(v)?;
    let l = lists.label(t.number())?;
    must(l == 1)?;
    lists.enqueue(g, v)
}

// The end of edge x in a label-1 group: the second where the first is free.
#[tactic(auto, unfolding(steps::specs::Adjust::labelled_end))]
fn labelled_end(lists: &Lists, x: EdgeAt) -> Result<Node, Fault>
    ensures { (at : Progress) → Answers (labelled_end_of (state_of lists.now at) (edge x.first x.second x.weight)) result }
{
    let t = lists.top(x.first)?;
    let l = lists.label(t.number())?;
    if l == 0 {
        return Ok(x.second);
    }
    Ok(x.first)
}

// After type 2: edge e, which leads to a free node, is allowed.
#[tactic(auto, unfolding(steps::specs::Adjust::follow2))]
pub fn follow_two(g: &Graph, lists: &mut Lists, e: Edge) -> Result<(), Fault>
    requires { sized lists.old ≡ size_of g.now }
    ensures said { (at : Progress) → Agrees (follow2 g.now e (state_of lists.old at)) result (state_of lists.new at) }
    ensures size { sized lists.new ≡ sized lists.old }
    ensures kids { lists.new.forest.kids ≡ lists.old.forest.kids }
    ensures others { InLabels lists.old lists.new × ButFollowed lists.old.labels lists.new.labels }
{
    lists.put_allowed(e, true)?;
    let x = g.edge(e)?;
    let v = labelled_end(lists, x)?;
    resume(g, lists, v)
}

// After type 3: edge e between two label-1 groups is allowed. The end with a label is no choice here, so nothing is shared with type 2.
#[tactic(auto, unfolding(steps::specs::Adjust::follow3))]
pub fn follow_three(g: &Graph, lists: &mut Lists, e: Edge) -> Result<(), Fault>
    requires { sized lists.old ≡ size_of g.now }
    ensures said { (at : Progress) → Agrees (follow3 g.now e (state_of lists.old at)) result (state_of lists.new at) }
    ensures size { sized lists.new ≡ sized lists.old }
    ensures kids { lists.new.forest.kids ≡ lists.old.forest.kids }
    ensures others { InLabels lists.old lists.new × ButFollowed lists.old.labels lists.new.labels }
{
    lists.put_allowed(e, true)?;
    let x = g.edge(e)?;
    resume(g, lists, x.first)
}
