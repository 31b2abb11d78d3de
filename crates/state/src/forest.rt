// The forest of groups: outermost groups, parents, bases, the rings of children, the numbers that are free.
ghost use Rattle.std.specs.Prelude.{◌≡◌, ◌*◌, ◌≤◌, ◌<◌, [], length};
ghost use Rattle.std.specs.Result.{IfOk};
ghost use Rattle.laws.specs.Run.{at};
ghost use Rattle.steps.specs.State.{Labelling as LabellingOf, Pairing as PairingOf, Progress};
ghost use Rattle.steps.specs.Stores.{put_top, put_parent, put_base, put_children, put_ring_ends};
ghost use Rattle.steps.specs.Leaves.{leaves as leaves_of};
ghost use Rattle.numbers.specs.Answers.{Answers, AnswersRow, RowFits, Agrees};
ghost use Rattle.state.specs.Parts.{whole};
ghost use Rattle.state.specs.Keeps.{ButBases, ButChildren, ButParents, ButRingEnds, ButTops};

use crate::pools::{Pool, Stack, leaves};
use numbers::faults::{Fault, read, store};
use numbers::{Group, Node};
use std::marker::Model;

#[derive(Drop)]
pub struct Forest<'a> {
    pub(crate) n: u16,
    pub(crate) tops: &'a mut [u16],
    pub(crate) parents: &'a mut [u16],
    pub(crate) bases: &'a mut [u16],
    pub(crate) children: Pool<'a>,
    pub(crate) ring_ends: Pool<'a>,
    pub(crate) free: Stack<'a>,
}

impl<'a> Model for Forest<'a> {
    ghost use Rattle.state.specs.Parts.{Trees, forest_of};
    ghost use Rattle.state.specs.Views.{TreesFit};

    ghost Value = { Trees };

    ghost view = { λ s. record { lists = forest_of s.tops.now s.parents.now s.bases.now s.children.rows s.ring_ends.rows s.free.entries; nodes = s.n; kids = s.children.places; counts = s.children.counts; links = s.ring_ends.places; link_counts = s.ring_ends.counts; free_places = s.free.places } };

    ghost invariant = { λ s. TreesFit s.n s.tops.now s.parents.now s.bases.now s.children.rows s.ring_ends.rows s.free.room };
}

impl<'a> Forest<'a> {
    // The outermost group of node v.
    pub fn top(&self, v: Node) -> Result<Group, Fault>
        ensures said { Answers (at self.now.lists.tops v) result }
        ensures near { IfOk result (λ b. v < self.now.nodes) }
    {
        let b = read(self.tops, v.number())?;
        Ok(Group::of(b))
    }

    pub fn base(&self, b: Group) -> Result<Node, Fault>
        ensures said { Answers (at self.now.lists.bases b) result }
        ensures near { IfOk result (λ v. b < 2 * self.now.nodes) }
    {
        let v = read(self.bases, b.number())?;
        Ok(Node::of(v))
    }

    // The group that holds b, which may be missing.
    pub fn parent(&self, b: Group) -> Result<Group, Fault>
        ensures said { Answers (at self.now.lists.parents b) result }
        ensures near { IfOk result (λ p. b < 2 * self.now.nodes) }
    {
        let p = read(self.parents, b.number())?;
        Ok(Group::of(p))
    }

    pub fn set_top(&mut self, v: Node, b: Group) -> Result<(), Fault>
        ensures said { (l : LabellingOf) (q : PairingOf) (at : Progress) → Agrees (put_top v b (whole self.old.lists l q at)) result (whole self.new.lists l q at) }
        ensures size { self.new.nodes ≡ self.old.nodes }
        ensures kids { self.new.kids ≡ self.old.kids }
        ensures others { ButTops self.old self.new }
    {
        store(self.tops, v.number(), b.number())
    }

    pub fn set_parent(&mut self, b: Group, to: Group) -> Result<(), Fault>
        ensures said { (l : LabellingOf) (q : PairingOf) (at : Progress) → Agrees (put_parent b to (whole self.old.lists l q at)) result (whole self.new.lists l q at) }
        ensures size { self.new.nodes ≡ self.old.nodes }
        ensures kids { self.new.kids ≡ self.old.kids }
        ensures others { ButParents self.old self.new }
    {
        store(self.parents, b.number(), to.number())
    }

    pub fn set_base(&mut self, b: Group, v: Node) -> Result<(), Fault>
        ensures said { (l : LabellingOf) (q : PairingOf) (at : Progress) → Agrees (put_base b v (whole self.old.lists l q at)) result (whole self.new.lists l q at) }
        ensures size { self.new.nodes ≡ self.old.nodes }
        ensures kids { self.new.kids ≡ self.old.kids }
        ensures others { ButBases self.old self.new }
    {
        store(self.bases, b.number(), v.number())
    }

    // The children of b, round the ring. Two methods, since the definition has two lists: one with a flag would be no shorter.
    pub fn children(&self, b: Group) -> Result<&[u16], Fault>
        ensures said { AnswersRow (at self.now.lists.children b) result }
        ensures fits { RowFits result }
    {
        self.children.row(b.number())
    }

    // The end at each child of b to the next.
    pub fn ring_ends(&self, b: Group) -> Result<&[u16], Fault>
        ensures said { AnswersRow (at self.now.lists.ring_ends b) result }
        ensures fits { RowFits result }
    {
        self.ring_ends.row(b.number())
    }

    // The nodes of b go on the end of out.
    pub fn leaves(&self, n: u16, b: Group, out: &mut Stack) -> Result<(), Fault>
        ensures said { Agrees (leaves_of n out.old.room self.now.lists.children n b out.old.entries) result out.new.entries }
        ensures room { out.new.room ≡ out.old.room }
    {
        leaves(&self.children, n, n, b.number(), out)
    }

    // The children of group b become these.
    pub fn set_children(&mut self, b: Group, items: &[u16]) -> Result<(), Fault>
        requires fits { (self.old.nodes ≤ b) × (length items.now ≤ self.old.nodes) }
        ensures said { (l : LabellingOf) (q : PairingOf) (at : Progress) → Agrees (put_children b items.now (whole self.old.lists l q at)) result (whole self.new.lists l q at) }
        ensures size { self.new.nodes ≡ self.old.nodes }
        ensures others { ButChildren self.old self.new }
    {
        self.children.set_row(b.number(), items)
    }

    // The ring ends of group b become these.
    pub fn set_ring_ends(&mut self, b: Group, items: &[u16]) -> Result<(), Fault>
        requires fits { (self.old.nodes ≤ b) × (length items.now ≤ self.old.nodes) }
        ensures said { (l : LabellingOf) (q : PairingOf) (at : Progress) → Agrees (put_ring_ends b items.now (whole self.old.lists l q at)) result (whole self.new.lists l q at) }
        ensures size { self.new.nodes ≡ self.old.nodes }
        ensures kids { self.new.kids ≡ self.old.kids }
        ensures others { ButRingEnds self.old self.new }
    {
        self.ring_ends.set_row(b.number(), items)
    }

    // Group b has no children any more. Their places are left as they are.
    pub fn clear_children(&mut self, b: Group) -> Result<(), Fault>
        ensures said { (l : LabellingOf) (q : PairingOf) (at : Progress) → Agrees (put_children b [] (whole self.old.lists l q at)) result (whole self.new.lists l q at) }
        ensures size { self.new.nodes ≡ self.old.nodes }
        ensures kids { self.new.kids ≡ self.old.kids }
        ensures others { ButChildren self.old self.new }
    {
        self.children.clear_row(b.number())
    }

    pub fn clear_ring_ends(&mut self, b: Group) -> Result<(), Fault>
        ensures said { (l : LabellingOf) (q : PairingOf) (at : Progress) → Agrees (put_ring_ends b [] (whole self.old.lists l q at)) result (whole self.new.lists l q at) }
        ensures size { self.new.nodes ≡ self.old.nodes }
        ensures kids { self.new.kids ≡ self.old.kids }
        ensures others { ButRingEnds self.old self.new }
        ensures links { self.new.links ≡ self.old.links }
    {
        self.ring_ends.clear_row(b.number())
    }
}
