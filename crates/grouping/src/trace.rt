// The walk from a group back to the meeting point of two paths.
ghost use Rattle.std.specs.Prelude.{◌≡◌, List, ℕ, ◌*◌};
ghost use Rattle.steps.specs.State.{Progress};
ghost use Rattle.steps.specs.Add.{traceable as traceable_of, trace_move, trace as trace_of};
ghost use Rattle.numbers.specs.Answers.{Answers, Agrees};
ghost use Rattle.state.specs.Parts.{state_of};
ghost use Rattle.grouping.specs.Parts.{standing, Steps};

use crate::path::Path;
use edges::graph::Graph;
use numbers::faults::{Fault, must, present};
use numbers::{End, Group};
use state::lists::Lists;

// The end through which a group got its label, and the group across.
#[derive(Clone, Copy, Debug, PartialEq, Eq)]
pub struct Back {
    pub end: End,
    pub to: Group,
}

// Group b has label 2, or label 1 that came through its base's mate.
#[tactic(auto, unfolding(steps::specs::Add::traceable))]
pub fn traceable(lists: &Lists, b: Group, e: End) -> Result<bool, Fault>
    ensures { (at : Progress) → Answers (traceable_of (state_of lists.now at) b e) result }
{
    let l = lists.label(b.number())?;
    Ok(l == 2 || l == 1 && e == lists.base_mate(b)?)
}

// One group back from b.
#[tactic(auto, unfolding(steps::specs::Add::trace_move))]
pub fn step_back(g: &Graph, lists: &Lists, b: Group) -> Result<Back, Fault>
    ensures { (at : Progress) (kids : List ℕ) (ends : List ℕ) → Steps (trace_move g.now (state_of lists.now at) (standing b kids ends)) b kids ends result }
{
    let end = lists.label_end(b)?;
    present(end.number())?;
    let fine = traceable(lists, b, end)?;
    must(fine)?;
    let v = g.endpoint(end)?;
    let to = lists.top(v)?;
    Ok(Back { end, to })
}

// From group b back to the group stop; the groups passed and their ends go to the path.
#[tactic(auto, using(crate::proofs::TraceLaws::traces), unfolding(steps::specs::Add::trace))]
pub fn trace(g: &Graph, lists: &Lists, stop: Group, b: Group, path: &mut Path) -> Result<(), Fault>
    requires { path.old.room ≡ 2 * g.now.nodes }
    ensures said { (at : Progress) → Agrees (trace_of g.now (state_of lists.now at) stop b) result (standing stop path.new.kids path.new.ends) }
    ensures room { path.new.room ≡ path.old.room }
{
    path.clear();
    // The path's room is the limit of moves, so none is counted.
    let mut here = b;
    while here != stop {
        let back = step_back(g, lists, here)?;
        path.push(here, back.end)?;
        here = back.to;
    }
    Ok(())
}
