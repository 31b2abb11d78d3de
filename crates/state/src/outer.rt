// Outermost groups. For a number of no group one read tells.
ghost use Rattle.std.specs.Prelude.{◌≡◌, ◌*◌, ◌<◌, IsOk, get_or, pos};
ghost use Rattle.std.specs.Result.{IfOk};
ghost use Rattle.laws.specs.Run.{ok, at as at_of};
ghost use Rattle.steps.specs.State.{Labelling as LabellingOf, Pairing as PairingOf, Progress};
ghost use Rattle.steps.specs.Adjust.{is_outermost as is_outermost_of};
ghost use Rattle.numbers.specs.Answers.{Answers};
ghost use Rattle.state.specs.Parts.{whole, state_of};
ghost use Rattle.state.specs.Outer.{Stands};

use crate::forest::Forest;
use crate::labelling::Labelling;
use crate::lists::Lists;
use crate::pairing::Pairing;
use numbers::faults::{Fault, read};
use numbers::{Group, MISSING};

impl<'a> Forest<'a> {
    #[tactic(auto, using(crate::proofs::OuterLaws::outer), unfolding(steps::specs::Adjust::is_outermost))]
    pub fn is_outermost(&self, b: Group) -> Result<bool, Fault>
        ensures said { (l : LabellingOf) (q : PairingOf) (at : Progress) → Answers (is_outermost_of (whole self.now.lists l q at) b) result }
        ensures near { IfOk result (λ o. b < 2 * self.now.nodes) }
        ensures there { b < 2 * self.now.nodes → IsOk result }
    {
        let base = read(self.bases, b.number())?;
        if base == MISSING {
            return Ok(false);
        }
        let p = read(self.parents, b.number())?;
        Ok(p == MISSING)
    }
}

impl<'a> Labelling<'a> {
    // That b has a label: the type's invariant says so, and it costs nothing to tell.
    #[tactic(auto, using(crate::proofs::OuterLaws::there))]
    pub fn holds(&self, b: Group)
        requires { b < 2 * self.now.size.nodes }
        ensures { at_of self.now.lists.labels b ≡ ok (get_or self.now.lists.labels b 0) }
    {
        prove!((b.number() as usize) < self.labels.len());
    }
}

impl<'a> Pairing<'a> {
    // The same: b has a dual.
    #[tactic(auto, using(crate::proofs::OuterLaws::there))]
    pub fn holds(&self, b: Group)
        requires { b < 2 * self.now.nodes }
        ensures { at_of self.now.lists.duals b ≡ ok (get_or self.now.lists.duals b (pos 0)) }
    {
        prove!((b.number() as usize) < self.duals.len());
    }
}

impl<'a> Lists<'a> {
    // b is a group in use, and outermost. If so or not, it has a label and a dual, which need not be read to know.
    pub fn is_outermost(&self, b: Group) -> Result<bool, Fault>
        ensures said { (at : Progress) → Answers (is_outermost_of (state_of self.now at) b) result }
        ensures stands { IfOk result (λ o. Stands self.now b) }
        ensures there { b < 2 * self.now.labels.size.nodes → IsOk result }
    {
        let outermost = self.forest.is_outermost(b)?;
        self.labelling.holds(b);
        self.pairing.holds(b);
        Ok(outermost)
    }
}
