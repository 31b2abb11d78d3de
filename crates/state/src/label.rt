// How a label is given: labels, label ends, best edges and the queue.
ghost use Rattle.std.specs.Prelude.{◌≡◌};
ghost use Rattle.steps.specs.State.{Progress};
ghost use Rattle.steps.specs.Label.{label1, label2};
ghost use Rattle.numbers.specs.Answers.{Agrees};
ghost use Rattle.state.specs.Parts.{state_of, sized, size_of};
ghost use Rattle.state.specs.Keeps.{ButLabelled, InLabels};

use crate::lists::Lists;
use edges::graph::Graph;
use numbers::faults::{Fault, present};
use numbers::{End, Node};

impl<'a> Lists<'a> {
    // Label 1: the group's nodes are queued.
    #[tactic(auto, unfolding(steps::specs::Label::label1, steps::specs::Leaves::leaves_after))]
    pub fn label_one(&mut self, g: &Graph, w: Node, p: End) -> Result<(), Fault>
        requires { sized self.old ≡ size_of g.now }
        ensures said { (at : Progress) → Agrees (label1 g.now w p (state_of self.old at)) result (state_of self.new at) }
        ensures size { sized self.new ≡ sized self.old }
        ensures kids { self.new.forest.kids ≡ self.old.forest.kids }
        ensures others { InLabels self.old self.new × ButLabelled self.old.labels self.new.labels }
    {
        let b = self.forest.top(w)?;
        self.labelling.mark(w, b, 1, p)?;
        self.labelling.queue_leaves(&self.forest, g.nodes(), b)
    }

    // Label 2: the mate of the group's base gets label 1. Apart from label 1, as in the definition: it does more.
    #[tactic(auto, unfolding(steps::specs::Label::label2))]
    pub fn label_two(&mut self, g: &Graph, w: Node, p: End) -> Result<(), Fault>
        requires { sized self.old ≡ size_of g.now }
        ensures said { (at : Progress) → Agrees (label2 g.now w p (state_of self.old at)) result (state_of self.new at) }
        ensures size { sized self.new ≡ sized self.old }
        ensures kids { self.new.forest.kids ≡ self.old.forest.kids }
        ensures others { InLabels self.old self.new × ButLabelled self.old.labels self.new.labels }
    {
        let b = self.forest.top(w)?;
        self.labelling.mark(w, b, 2, p)?;
        let m = self.base_mate(b)?;
        present(m.number())?;
        let u = g.endpoint(m)?;
        self.label_one(g, u, m.beside())
    }
}
