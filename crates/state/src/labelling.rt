// The labelling of a stage: labels, the ends through which they came, best edges, allowed edges, the queue.
ghost use Rattle.std.specs.Prelude.{◌≡◌, ◌*◌, ◌≤◌, ◌<◌, [], length};
ghost use Rattle.std.specs.Result.{IfOk};
ghost use Rattle.laws.specs.Run.{at, pop as pop_of};
ghost use Rattle.steps.specs.State.{Forest as ForestOf, Pairing as PairingOf, Progress};
ghost use Rattle.steps.specs.Stores.{put_label, put_label_end, put_best, put_best_list, put_allowed};
ghost use Rattle.steps.specs.Label.{mark as mark_of, enqueue as enqueue_of};
ghost use Rattle.numbers.specs.Answers.{Answers, AnswersRow, RowFits, Agrees, Kept};
ghost use Rattle.state.specs.Parts.{whole, queued, with_queue_list};
ghost use Rattle.state.specs.Pops.{Pops, is_nil};
ghost use Rattle.state.specs.Keeps.{ButAllowed, ButBest, ButBestLists, ButLabelEnds, ButLabels, ButMarked, ButQueue};

use crate::forest::Forest;
use crate::pools::{Pool, Stack, copy};
use edges::graph::Graph;
use numbers::faults::{Fault, must, read, store};
use numbers::{Edge, End, Group, MISSING, Node};
use std::marker::Model;

#[derive(Drop)]
pub struct Labelling<'a> {
    pub(crate) n: u16,
    pub(crate) m: u16,
    pub(crate) labels: &'a mut [u16],
    pub(crate) label_ends: &'a mut [u16],
    pub(crate) best: &'a mut [u16],
    pub(crate) best_lists: Pool<'a>,
    pub(crate) allowed: &'a mut [bool],
    pub(crate) queue: Stack<'a>,
}

impl<'a> Model for Labelling<'a> {
    ghost use Rattle.state.specs.Parts.{Labels, labelling_of};
    ghost use Rattle.state.specs.Views.{LabelsFit};

    ghost Value = { Labels };

    ghost view = { λ s. record { lists = labelling_of s.labels.now s.label_ends.now s.best.now s.best_lists.rows s.allowed.now s.queue.entries; size = record { nodes = s.n; edges = s.m }; candidates = s.best_lists.places } };

    ghost invariant = { λ s. LabelsFit s.n s.m s.labels.now s.label_ends.now s.best.now s.best_lists.rows s.allowed.now s.queue.room };
}

impl<'a> Labelling<'a> {
    // The label of a node or group: a number and no enum. The clause is one equation with the definition's list of numbers, where the label of
    // a group that was expanded is missing, and the scan's copy of that list has marks besides.
    pub fn label(&self, i: u16) -> Result<u16, Fault>
        ensures said { Answers (at self.now.lists.labels i) result }
        ensures near { IfOk result (λ l. i < 2 * self.now.size.nodes) }
    {
        read(self.labels, i)
    }

    pub fn label_end(&self, b: Group) -> Result<End, Fault>
        ensures { Answers (at self.now.lists.label_ends b) result }
    {
        let p = read(self.label_ends, b.number())?;
        Ok(End::of(p))
    }

    // The best edge at a node or group, which may be missing.
    pub fn best(&self, i: u16) -> Result<Edge, Fault>
        ensures { Answers (at self.now.lists.best i) result }
    {
        let e = read(self.best, i)?;
        Ok(Edge::of(e))
    }

    pub fn best_list(&self, b: Group) -> Result<&[u16], Fault>
        ensures said { AnswersRow (at self.now.lists.best_lists b) result }
        ensures fits { RowFits result }
    {
        self.best_lists.row(b.number())
    }

    pub fn is_allowed(&self, e: Edge) -> Result<bool, Fault>
        ensures { Answers (at self.now.lists.allowed e) result }
    {
        read(self.allowed, e.number())
    }

    pub fn set_label(&mut self, i: u16, t: u16) -> Result<(), Fault>
        ensures said { (f : ForestOf) (q : PairingOf) (at : Progress) → Agrees (put_label i t (whole f self.old.lists q at)) result (whole f self.new.lists q at) }
        ensures size { self.new.size ≡ self.old.size }
        ensures others { ButLabels self.old self.new }
    {
        store(self.labels, i, t)
    }

    pub fn set_label_end(&mut self, i: u16, p: End) -> Result<(), Fault>
        ensures said { (f : ForestOf) (q : PairingOf) (at : Progress) → Agrees (put_label_end i p (whole f self.old.lists q at)) result (whole f self.new.lists q at) }
        ensures size { self.new.size ≡ self.old.size }
        ensures others { ButLabelEnds self.old self.new }
    {
        store(self.label_ends, i, p.number())
    }

    #[tactic(auto, using(crate::proofs::Unstored::unstored))]
    pub fn set_best(&mut self, i: u16, e: Edge) -> Result<(), Fault>
        ensures said { (f : ForestOf) (q : PairingOf) (at : Progress) → Agrees (put_best i e (whole f self.old.lists q at)) result (whole f self.new.lists q at) }
        ensures size { self.new.size ≡ self.old.size }
        ensures kept { Kept result self.old self.new }
        ensures others { ButBest self.old self.new }
    {
        store(self.best, i, e.number())
    }

    // The candidates of group b become these.
    pub fn set_best_list(&mut self, b: Group, items: &[u16]) -> Result<(), Fault>
        requires fits { (self.old.size.nodes ≤ b) × (length items.now ≤ self.old.size.nodes) }
        ensures said { (f : ForestOf) (q : PairingOf) (at : Progress) → Agrees (put_best_list b items.now (whole f self.old.lists q at)) result (whole f self.new.lists q at) }
        ensures size { self.new.size ≡ self.old.size }
        ensures others { ButBestLists self.old self.new }
    {
        self.best_lists.set_row(b.number(), items)
    }

    // A node or group has no candidates any more.
    pub fn clear_best_list(&mut self, b: Group) -> Result<(), Fault>
        ensures said { (f : ForestOf) (q : PairingOf) (at : Progress) → Agrees (put_best_list b [] (whole f self.old.lists q at)) result (whole f self.new.lists q at) }
        ensures size { self.new.size ≡ self.old.size }
        ensures others { ButBestLists self.old self.new }
        ensures places { self.new.candidates ≡ self.old.candidates }
    {
        self.best_lists.clear_row(b.number())
    }

    pub fn set_allowed(&mut self, e: Edge, allowed: bool) -> Result<(), Fault>
        ensures said { (f : ForestOf) (q : PairingOf) (at : Progress) → Agrees (put_allowed e allowed (whole f self.old.lists q at)) result (whole f self.new.lists q at) }
        ensures size { self.new.size ≡ self.old.size }
        ensures others { ButAllowed self.old self.new }
    {
        store(self.allowed, e.number(), allowed)
    }

    // The labels into a list of the caller.
    pub fn copy_labels(&self, to: &mut [u16])
        requires { length to.old ≡ 2 * self.now.size.nodes }
        ensures { to.new ≡ self.now.lists.labels }
    {
        copy(self.labels, to);
    }

    // Node v goes on the end of the queue, which holds at most 2n.
    #[tactic(auto, unfolding(steps::specs::Label::enqueue))]
    pub fn enqueue(&mut self, g: &Graph, v: Node) -> Result<(), Fault>
        requires { self.old.size.nodes ≡ g.now.nodes }
        ensures said { (f : ForestOf) (q : PairingOf) (at : Progress) → Agrees (enqueue_of g.now v (whole f self.old.lists q at)) result (whole f self.new.lists q at) }
        ensures size { self.new.size ≡ self.old.size }
        ensures others { ButQueue self.old self.new }
    {
        self.queue.push(v.number())
    }

    // The nodes of b go on the end of the queue.
    pub fn queue_leaves(&mut self, forest: &Forest, n: u16, b: Group) -> Result<(), Fault>
        ensures said { Agrees (queued n (2 * self.old.size.nodes) forest.now.lists b self.old.lists) result self.new.lists }
        ensures size { self.new.size ≡ self.old.size }
        ensures others { ButQueue self.old self.new }
    {
        forest.leaves(n, b, &mut self.queue)?;
        Ok(())
    }

    // Node w and its outermost group b, both unlabelled, get label t through end p.
    #[tactic(auto, unfolding(steps::specs::Label::mark))]
    pub fn mark(&mut self, w: Node, b: Group, t: u16, p: End) -> Result<(), Fault>
        ensures said { (f : ForestOf) (q : PairingOf) (at : Progress) → Agrees (mark_of w b t p (whole f self.old.lists q at)) result (whole f self.new.lists q at) }
        ensures size { self.new.size ≡ self.old.size }
        ensures others { ButMarked self.old self.new }
    {
        let at_node = self.label(w.number())?;
        let at_group = self.label(b.number())?;
        must(at_node == 0 && at_group == 0)?;
        store(self.labels, w.number(), t)?;
        store(self.labels, b.number(), t)?;
        store(self.label_ends, b.number(), p.number())?;
        store(self.label_ends, w.number(), p.number())?;
        store(self.best, w.number(), MISSING)?;
        store(self.best, b.number(), MISSING)
    }

    pub fn has_none_queued(&self) -> bool
        ensures { result ≡ is_nil self.now.lists.queue }
    {
        self.queue.is_empty()
    }

    // The last node of the queue is taken off.
    pub fn take_queued(&mut self) -> Result<Node, Fault>
        ensures said { Pops (pop_of self.old.lists.queue) result self.new.lists.queue }
        ensures rest { self.new.lists ≡ with_queue_list self.new.lists.queue self.old.lists }
        ensures size { self.new.size ≡ self.old.size }
        ensures others { ButQueue self.old self.new }
    {
        let v = self.queue.pop()?;
        Ok(Node::of(v))
    }
}
