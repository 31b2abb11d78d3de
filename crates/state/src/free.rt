// The numbers of groups: the last free one is taken first.
ghost use Rattle.std.specs.Prelude.{◌≡◌};
ghost use Rattle.steps.specs.State.{Labelling as LabellingOf, Pairing as PairingOf, Progress};
ghost use Rattle.state.specs.Free.{take_last, Takes};
ghost use Rattle.state.specs.Parts.{state_of, sized, whole};
ghost use Rattle.state.specs.Keeps.{ButFree, InForest};
ghost use Rattle.numbers.specs.Answers.{Kept};

use crate::forest::Forest;
use crate::lists::Lists;
use numbers::Group;
use numbers::faults::Fault;

impl<'a> Forest<'a> {
    #[tactic(auto, unfolding(crate::specs::Free::take_last))]
    pub fn take_free(&mut self) -> Result<Group, Fault>
        ensures said { (l : LabellingOf) (q : PairingOf) (at : Progress) → Takes (take_last (whole self.old.lists l q at)) result (whole self.new.lists l q at) }
        ensures size { self.new.nodes ≡ self.old.nodes }
        ensures kids { self.new.kids ≡ self.old.kids }
        ensures others { ButFree self.old self.new }
        ensures places { self.new.free_places ≡ self.old.free_places }
        ensures kept { Kept result self.old self.new }
    {
        let b = self.free.pop()?;
        Ok(Group::of(b))
    }
}

impl<'a> Lists<'a> {
    // The last of the free numbers.
    pub fn take_free(&mut self) -> Result<Group, Fault>
        ensures said { (at : Progress) → Takes (take_last (state_of self.old at)) result (state_of self.new at) }
        ensures size { sized self.new ≡ sized self.old }
        ensures kids { self.new.forest.kids ≡ self.old.forest.kids }
        ensures others { InForest self.old self.new × ButFree self.old.forest self.new.forest }
        ensures places { self.new.forest.free_places ≡ self.old.forest.free_places }
        ensures kept { Kept result self.old self.new }
    {
        self.forest.take_free()
    }
}
