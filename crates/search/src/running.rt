// A run: steps until the search has ended, the budget is spent or a step faults.
ghost use Rattle.std.specs.Prelude.{◌≡◌};
ghost use Rattle.std.specs.Result.{IfOk};
ghost use Rattle.matching.specs.Graph.{is_group};
ghost use Rattle.steps.specs.Plan.{run_by};
ghost use Rattle.steps.specs.State.{start};
ghost use Rattle.search.specs.Searched.{searched, Ends, Ready, Numbered, Stands};

use crate::search::Search;
use edges::graph::Graph;

// Why a run stopped, with the steps completed: the budget is spent, or a step has faulted.
// The error of a run: two ways to stop, each with its count.
#[derive(Clone, Copy, Debug, PartialEq, Eq)]
pub enum Stopped {
    Spent(u32),
    Broken(u32),
}

impl<'a, 'b> Search<'a, 'b> {
    // Steps are counted; one that faults isn't. From the fresh start, the search in which a run ends stands, as each on the way does.
    #[tactic(auto, using(crate::proofs::RunLaws::run_turns))]
    pub fn run(self, g: &Graph, flag: bool, budget: u32) -> Result<(Search<'a, 'b>, u32), Stopped>
        requires { Ready g.now self }
        ensures said { Ends (run_by is_group g.now flag budget 0 (searched self.entry)) result }
        ensures ready { IfOk result (λ r. Ready g.now r.0) }
        ensures stands { Numbered g.now → searched self.entry ≡ start g.now → IfOk result (λ r. Stands g.now flag r.1 r.0) }
    {
        // No range: the count is part of the answer, and the phase is asked before the budget.
        let mut s = self;
        let mut count = 0;
        while !s.is_ended() {
            if count == budget {
                return Err(Stopped::Spent(count));
            }
            s = s.step(g, flag).map_err(|_| Stopped::Broken(count))?;
            count += 1;
        }
        Ok((s, count))
    }
}
