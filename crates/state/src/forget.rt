// What a stage left is forgotten: the labelling is as if no node had a label.
ghost use Rattle.std.specs.Prelude.{ℕ, ◌≡◌, ◌*◌, ◌++◌, [], length, replicate, take};
ghost use Rattle.steps.specs.State.{Progress};
ghost use Rattle.steps.specs.Steps.{forget};
ghost use Rattle.state.specs.Forgets.{forgotten};
ghost use Rattle.state.specs.Parts.{state_of, sized, size_of};
ghost use Rattle.state.specs.Keeps.{InLabels};

use crate::labelling::Labelling;
use crate::lists::Lists;
use crate::pools::Pool;
use edges::graph::Graph;
use numbers::MISSING;

impl<'a> Pool<'a> {
    // All groups' rows are emptied; a node's row is empty.
    pub fn clear_rows(&mut self)
        ensures said { (n : ℕ) → length self.old.rows ≡ 2 * n → self.new.rows ≡ take n self.old.rows ++ replicate n [] }
        ensures size { length self.new.rows ≡ length self.old.rows }
        ensures places { self.new.places ≡ self.old.places }
    {
        self.counts.fill(0);
    }
}

impl<'a> Labelling<'a> {
    pub fn forget(&mut self)
        ensures said { self.new.lists ≡ forgotten self.old.size.nodes self.old.size.edges self.old.lists }
        ensures size { self.new.size ≡ self.old.size }
        ensures places { self.new.candidates ≡ self.old.candidates }
    {
        self.labels.fill(0);
        self.label_ends.fill(MISSING);
        self.best.fill(MISSING);
        self.best_lists.clear_rows();
        self.allowed.fill(false);
        self.queue.clear();
    }
}

impl<'a> Lists<'a> {
    #[tactic(auto, unfolding(steps::specs::Steps::forget))]
    pub fn forget(&mut self, g: &Graph)
        requires { sized self.old ≡ size_of g.now }
        ensures said { (at : Progress) → state_of self.new at ≡ forget g.now (state_of self.old at) }
        ensures size { sized self.new ≡ sized self.old }
        ensures kids { self.new.forest.kids ≡ self.old.forest.kids }
        ensures others { InLabels self.old self.new × (self.new.labels.candidates ≡ self.old.labels.candidates) }
    {
        self.labelling.forget();
    }
}
