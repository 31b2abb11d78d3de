// The queue: whether a node waits in it, and the last taken off.
ghost use Rattle.std.specs.Prelude.{◌≡◌};
ghost use Rattle.laws.specs.Run.{pop as pop_of};
ghost use Rattle.steps.specs.State.{Progress};
ghost use Rattle.steps.specs.Stores.{with_queue};
ghost use Rattle.state.specs.Parts.{state_of, sized};
ghost use Rattle.state.specs.Pops.{Pops, is_nil};
ghost use Rattle.state.specs.Keeps.{ButQueue, InLabels};

use crate::lists::Lists;
use numbers::Node;
use numbers::faults::Fault;

impl<'a> Lists<'a> {
    pub fn has_none_queued(&self) -> bool
        ensures { result ≡ is_nil self.now.labels.lists.queue }
    {
        self.labelling.has_none_queued()
    }

    pub fn take_queued(&mut self) -> Result<Node, Fault>
        ensures said { Pops (pop_of self.old.labels.lists.queue) result self.new.labels.lists.queue }
        ensures rest { (at : Progress) → state_of self.new at ≡ with_queue self.new.labels.lists.queue (state_of self.old at) }
        ensures size { sized self.new ≡ sized self.old }
        ensures others { InLabels self.old self.new × ButQueue self.old.labels self.new.labels }
    {
        self.labelling.take_queued()
    }
}
