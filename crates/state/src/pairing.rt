// The pairing: mates and duals.
ghost use Rattle.std.specs.Prelude.{ℕ, ◌≡◌, ◌*◌, ◌≤◌, ◌<◌, nat_abs, length};
ghost use Rattle.std.specs.Result.{IfOk};
ghost use Rattle.laws.specs.Run.{at};
ghost use Rattle.steps.specs.State.{Forest as ForestOf, Labelling as LabellingOf, Progress};
ghost use Rattle.steps.specs.Stores.{put_mate, put_dual};
ghost use Rattle.steps.specs.Ends.{slack_of, tighter as tighter_of};
ghost use Rattle.numbers.specs.Answers.{Answers, Agrees};
ghost use Rattle.state.specs.Parts.{whole};
ghost use Rattle.state.specs.Keeps.{ButDuals, ButMates};
ghost use Rattle.numbers.specs.Near.{Near};

use edges::graph::Graph;
use numbers::faults::{Fault, read, store};
use numbers::{Edge, End, Node};
use std::marker::Model;

#[derive(Drop)]
pub struct Pairing<'a> {
    pub(crate) n: u16,
    pub(crate) mates: &'a mut [u16],
    pub(crate) duals: &'a mut [i64],
}

impl<'a> Model for Pairing<'a> {
    ghost use Rattle.state.specs.Parts.{Pairs};
    ghost use Rattle.state.specs.Views.{PairsFit};

    ghost Value = { Pairs };

    ghost view = { λ s. record { lists = record { mates = s.mates.now; duals = s.duals.now }; nodes = s.n } };

    ghost invariant = { λ s. PairsFit s.n s.mates.now s.duals.now };
}

impl<'a> Pairing<'a> {
    // The end at the mate of node v, which may be missing.
    pub fn mate(&self, v: Node) -> Result<End, Fault>
        ensures { Answers (at self.now.lists.mates v) result }
    {
        let p = read(self.mates, v.number())?;
        Ok(End::of(p))
    }

    // The dual of a node or group.
    pub fn dual(&self, i: u16) -> Result<i64, Fault>
        ensures said { Answers (at self.now.lists.duals i) result }
        ensures near { IfOk result (λ d. nat_abs d ≤ 4503599627370496) }
    {
        read(self.duals, i)
    }

    pub fn set_mate(&mut self, v: Node, p: End) -> Result<(), Fault>
        ensures said { (f : ForestOf) (l : LabellingOf) (at : Progress) → Agrees (put_mate v p (whole f l self.old.lists at)) result (whole f l self.new.lists at) }
        ensures size { self.new.nodes ≡ self.old.nodes }
        ensures others { ButMates self.old self.new }
    {
        store(self.mates, v.number(), p.number())
    }

    pub fn set_dual(&mut self, i: u16, d: i64) -> Result<(), Fault>
        requires { nat_abs d ≤ 4503599627370496 }
        ensures said { (f : ForestOf) (l : LabellingOf) (at : Progress) → Agrees (put_dual i d (whole f l self.old.lists at)) result (whole f l self.new.lists at) }
        ensures size { self.new.nodes ≡ self.old.nodes }
        ensures others { ButDuals self.old self.new }
        ensures stays { (k : ℕ) → nat_abs d ≤ k → Near k self.old.lists.duals → Near k self.new.lists.duals }
    {
        store(self.duals, i, d)
    }

    // The two duals at edge e less twice its weight.
    pub fn slack(&self, g: &Graph, e: Edge) -> Result<i64, Fault>
        ensures said { Answers (slack_of g.now self.now.lists.duals e) result }
        ensures near { IfOk result (λ k. nat_abs k ≤ 18014398509481984) }
    {
        g.slack(self.duals, e)
    }

    // Whether the slack of edge d is below that of edge e.
    pub fn tighter(&self, g: &Graph, d: Edge, e: Edge) -> Result<bool, Fault>
        ensures { Answers (tighter_of g.now self.now.lists.duals d e) result }
    {
        g.tighter(self.duals, d, e)
    }
}
