// Opening a stage: what the last stage left is forgotten, and each unmatched node that is free becomes a root.
ghost use Rattle.std.specs.Prelude.{◌≡◌};
ghost use Rattle.laws.specs.Run.{for_range};
ghost use Rattle.steps.specs.State.{Progress};
ghost use Rattle.steps.specs.Steps.{root_at as root_at_of, open_stage as open_stage_of};
ghost use Rattle.numbers.specs.Answers.{Agrees};
ghost use Rattle.state.specs.Parts.{state_of, sized, size_of};
ghost use Rattle.stages.specs.Stage.{searching_at};
ghost use Rattle.state.specs.Keeps.{ButLabelled, InLabels};

use edges::graph::Graph;
use numbers::faults::Fault;
use numbers::{End, MISSING, Node};
use state::lists::Lists;

// An unmatched node whose outermost group is unlabelled is a root.
#[tactic(auto, unfolding(steps::specs::Steps::root_at))]
fn root_at(g: &Graph, lists: &mut Lists, v: Node) -> Result<(), Fault>
    requires { sized lists.old ≡ size_of g.now }
    ensures said { (at : Progress) → Agrees (root_at_of g.now v (state_of lists.old at)) result (state_of lists.new at) }
    ensures size { sized lists.new ≡ sized lists.old }
    ensures kids { lists.new.forest.kids ≡ lists.old.forest.kids }
    ensures others { InLabels lists.old lists.new × ButLabelled lists.old.labels lists.new.labels }
{
    let m = lists.mate(v)?;
    let t = lists.top(v)?;
    let l = lists.label(t.number())?;
    if m.is_missing() && l == 0 {
        lists.label_one(g, v, End::of(MISSING))?;
    }
    Ok(())
}

// Each root gets label 1.
#[tactic(auto, using(laws::proofs::Ranges::ranges))]
fn roots(g: &Graph, lists: &mut Lists) -> Result<(), Fault>
    requires { sized lists.old ≡ size_of g.now }
    ensures said { (at : Progress) → Agrees (for_range (root_at_of g.now) 0 g.now.nodes (state_of lists.old at)) result (state_of lists.new at) }
    ensures size { sized lists.new ≡ sized lists.old }
    ensures kids { lists.new.forest.kids ≡ lists.old.forest.kids }
    ensures others { InLabels lists.old lists.new × ButLabelled lists.old.labels lists.new.labels }
{
    for v in 0..g.nodes() {
        root_at(g, lists, Node::of(v))?;
    }
    Ok(())
}

// The stage is open: it is searched next.
#[tactic(auto, unfolding(steps::specs::Steps::open_stage))]
pub fn open_stage(g: &Graph, lists: &mut Lists) -> Result<(), Fault>
    requires { sized lists.old ≡ size_of g.now }
    ensures said { (at : Progress) → Agrees (open_stage_of g.now (state_of lists.old at)) result (state_of lists.new (searching_at at)) }
    ensures size { sized lists.new ≡ sized lists.old }
    ensures kids { lists.new.forest.kids ≡ lists.old.forest.kids }
    ensures others { InLabels lists.old lists.new × (lists.new.labels.candidates ≡ lists.old.labels.candidates) }
{
    lists.forget(g);
    roots(g, lists)
}
