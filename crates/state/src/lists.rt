// The lists of the search in the definition's three parts. A routine above takes them by one reference.
ghost use Rattle.std.specs.Prelude.{ℕ, ◌≡◌, ◌*◌, ◌≤◌, ◌<◌, [], nat_abs, length};
ghost use Rattle.std.specs.Result.{IfOk};
ghost use Rattle.laws.specs.Run.{at};
ghost use Rattle.steps.specs.State.{Progress};
ghost use Rattle.steps.specs.Stores.{put_top, put_parent, put_base, put_children, put_ring_ends, put_label, put_label_end, put_best, put_best_list, put_allowed, put_mate, put_dual};
ghost use Rattle.steps.specs.Label.{base_mate as base_mate_of, enqueue as enqueue_of};
ghost use Rattle.steps.specs.Leaves.{leaves as leaves_of};
ghost use Rattle.steps.specs.Ends.{slack_of, tighter as tighter_of};
ghost use Rattle.numbers.specs.Answers.{Answers, AnswersRow, RowFits, Agrees, Kept};
ghost use Rattle.state.specs.Parts.{state_of, sized, size_of};
ghost use Rattle.state.specs.Keeps.{ButAllowed, ButBases, ButBest, ButBestLists, ButChildren, ButDuals, ButLabelEnds, ButLabels, ButMates, ButParents, ButQueue, ButRingEnds, ButTops, InForest, InLabels, InPairing};
ghost use Rattle.numbers.specs.Near.{Near};

use crate::forest::Forest;
use crate::labelling::Labelling;
use crate::pairing::Pairing;
use crate::pools::Stack;
use edges::graph::Graph;
use numbers::faults::{Fault, present};
use numbers::{Edge, End, Group, Node};
use std::marker::Model;

// The graph is not among them: it is lent for reading while the lists change, so that the two are of one size is a clause. What a routine
// leaves as it was is a clause too (`others`), on a fault as well: no type says of one `&mut Lists` which of its lists may change.
#[derive(Drop)]
pub struct Lists<'a> {
    pub(crate) forest: Forest<'a>,
    pub(crate) labelling: Labelling<'a>,
    pub(crate) pairing: Pairing<'a>,
}

impl<'a> Model for Lists<'a> {
    ghost use Rattle.std.specs.Prelude.{◌≡◌};
    ghost use Rattle.state.specs.Parts.{Parts};

    ghost Value = { Parts };

    ghost view = { λ s. record { forest = s.forest; labels = s.labelling; pairing = s.pairing } };

    ghost invariant = { λ s. (s.forest.nodes ≡ s.labelling.size.nodes) × (s.pairing.nodes ≡ s.labelling.size.nodes) };
}

impl<'a> Lists<'a> {
    // ---- reads

    // A method for each list, and none that takes which list: each clause names the definition's list.

    // The outermost group of node v.
    pub fn top(&self, v: Node) -> Result<Group, Fault>
        ensures said { Answers (at self.now.forest.lists.tops v) result }
        ensures near { IfOk result (λ b. v < self.now.labels.size.nodes) }
    {
        self.forest.top(v)
    }

    // The base of group b, missing where the group is not in use.
    pub fn base(&self, b: Group) -> Result<Node, Fault>
        ensures said { Answers (at self.now.forest.lists.bases b) result }
        ensures near { IfOk result (λ v. b < 2 * self.now.labels.size.nodes) }
    {
        self.forest.base(b)
    }

    // The group that holds b, which may be missing.
    pub fn parent(&self, b: Group) -> Result<Group, Fault>
        ensures said { Answers (at self.now.forest.lists.parents b) result }
        ensures near { IfOk result (λ p. b < 2 * self.now.labels.size.nodes) }
    {
        self.forest.parent(b)
    }

    // The children of b, round the ring.
    pub fn children(&self, b: Group) -> Result<&[u16], Fault>
        ensures said { AnswersRow (at self.now.forest.lists.children b) result }
        ensures fits { RowFits result }
    {
        self.forest.children(b)
    }

    // The end at each child of b to the next.
    pub fn ring_ends(&self, b: Group) -> Result<&[u16], Fault>
        ensures said { AnswersRow (at self.now.forest.lists.ring_ends b) result }
        ensures fits { RowFits result }
    {
        self.forest.ring_ends(b)
    }

    // The label of a node or group.
    pub fn label(&self, i: u16) -> Result<u16, Fault>
        ensures said { Answers (at self.now.labels.lists.labels i) result }
        ensures near { IfOk result (λ l. i < 2 * self.now.labels.size.nodes) }
    {
        self.labelling.label(i)
    }

    // The end through which b got its label, missing at a root.
    pub fn label_end(&self, b: Group) -> Result<End, Fault>
        ensures { Answers (at self.now.labels.lists.label_ends b) result }
    {
        self.labelling.label_end(b)
    }

    // The best edge at a node or group, which may be missing.
    pub fn best(&self, i: u16) -> Result<Edge, Fault>
        ensures { Answers (at self.now.labels.lists.best i) result }
    {
        self.labelling.best(i)
    }

    // The candidates of b.
    pub fn best_list(&self, b: Group) -> Result<&[u16], Fault>
        ensures said { AnswersRow (at self.now.labels.lists.best_lists b) result }
        ensures fits { RowFits result }
    {
        self.labelling.best_list(b)
    }

    pub fn is_allowed(&self, e: Edge) -> Result<bool, Fault>
        ensures { Answers (at self.now.labels.lists.allowed e) result }
    {
        self.labelling.is_allowed(e)
    }

    // The end at the mate of node v, which may be missing.
    pub fn mate(&self, v: Node) -> Result<End, Fault>
        ensures { Answers (at self.now.pairing.lists.mates v) result }
    {
        self.pairing.mate(v)
    }

    // The dual of a node or group.
    pub fn dual(&self, i: u16) -> Result<i64, Fault>
        ensures said { Answers (at self.now.pairing.lists.duals i) result }
        ensures near { IfOk result (λ d. nat_abs d ≤ 4503599627370496) }
    {
        self.pairing.dual(i)
    }

    // The two duals at edge e less twice its weight.
    pub fn slack(&self, g: &Graph, e: Edge) -> Result<i64, Fault>
        ensures said { Answers (slack_of g.now self.now.pairing.lists.duals e) result }
        ensures near { IfOk result (λ k. nat_abs k ≤ 18014398509481984) }
    {
        self.pairing.slack(g, e)
    }

    // Whether the slack of edge d is below that of edge e.
    pub fn tighter(&self, g: &Graph, d: Edge, e: Edge) -> Result<bool, Fault>
        ensures { Answers (tighter_of g.now self.now.pairing.lists.duals d e) result }
    {
        self.pairing.tighter(g, d, e)
    }

    // The nodes of b go on the end of out.
    pub fn leaves(&self, g: &Graph, b: Group, out: &mut Stack) -> Result<(), Fault>
        ensures said { Agrees (leaves_of g.now.nodes out.old.room self.now.forest.lists.children g.now.nodes b out.old.entries) result out.new.entries }
        ensures room { out.new.room ≡ out.old.room }
    {
        self.forest.leaves(g.nodes(), b, out)
    }

    // The mate of a group's base, which may be missing.
    #[tactic(auto, unfolding(steps::specs::Label::base_mate))]
    pub fn base_mate(&self, b: Group) -> Result<End, Fault>
        ensures { (at : Progress) → Answers (base_mate_of (state_of self.now at) b) result }
    {
        let base = self.forest.base(b)?;
        present(base.number())?;
        self.pairing.mate(base)
    }

    // ---- stores

    pub fn put_top(&mut self, v: Node, b: Group) -> Result<(), Fault>
        ensures said { (at : Progress) → Agrees (put_top v b (state_of self.old at)) result (state_of self.new at) }
        ensures size { sized self.new ≡ sized self.old }
        ensures kids { self.new.forest.kids ≡ self.old.forest.kids }
        ensures others { InForest self.old self.new × ButTops self.old.forest self.new.forest }
    {
        self.forest.set_top(v, b)
    }

    pub fn put_parent(&mut self, b: Group, to: Group) -> Result<(), Fault>
        ensures said { (at : Progress) → Agrees (put_parent b to (state_of self.old at)) result (state_of self.new at) }
        ensures size { sized self.new ≡ sized self.old }
        ensures kids { self.new.forest.kids ≡ self.old.forest.kids }
        ensures others { InForest self.old self.new × ButParents self.old.forest self.new.forest }
    {
        self.forest.set_parent(b, to)
    }

    pub fn put_base(&mut self, b: Group, v: Node) -> Result<(), Fault>
        ensures said { (at : Progress) → Agrees (put_base b v (state_of self.old at)) result (state_of self.new at) }
        ensures size { sized self.new ≡ sized self.old }
        ensures kids { self.new.forest.kids ≡ self.old.forest.kids }
        ensures others { InForest self.old self.new × ButBases self.old.forest self.new.forest }
    {
        self.forest.set_base(b, v)
    }

    // The children of group b become these.
    pub fn put_children(&mut self, b: Group, items: &[u16]) -> Result<(), Fault>
        requires { (self.old.labels.size.nodes ≤ b) × (length items.now ≤ self.old.labels.size.nodes) }
        ensures said { (at : Progress) → Agrees (put_children b items.now (state_of self.old at)) result (state_of self.new at) }
        ensures size { sized self.new ≡ sized self.old }
        ensures others { InForest self.old self.new × ButChildren self.old.forest self.new.forest }
    {
        self.forest.set_children(b, items)
    }

    // The ring ends of group b become these.
    pub fn put_ring_ends(&mut self, b: Group, items: &[u16]) -> Result<(), Fault>
        requires { (self.old.labels.size.nodes ≤ b) × (length items.now ≤ self.old.labels.size.nodes) }
        ensures said { (at : Progress) → Agrees (put_ring_ends b items.now (state_of self.old at)) result (state_of self.new at) }
        ensures size { sized self.new ≡ sized self.old }
        ensures kids { self.new.forest.kids ≡ self.old.forest.kids }
        ensures others { InForest self.old self.new × ButRingEnds self.old.forest self.new.forest }
    {
        self.forest.set_ring_ends(b, items)
    }

    // Group b has no children any more.
    pub fn clear_children(&mut self, b: Group) -> Result<(), Fault>
        ensures said { (at : Progress) → Agrees (put_children b [] (state_of self.old at)) result (state_of self.new at) }
        ensures size { sized self.new ≡ sized self.old }
        ensures kids { self.new.forest.kids ≡ self.old.forest.kids }
        ensures others { InForest self.old self.new × ButChildren self.old.forest self.new.forest }
    {
        self.forest.clear_children(b)
    }

    pub fn clear_ring_ends(&mut self, b: Group) -> Result<(), Fault>
        ensures said { (at : Progress) → Agrees (put_ring_ends b [] (state_of self.old at)) result (state_of self.new at) }
        ensures size { sized self.new ≡ sized self.old }
        ensures kids { self.new.forest.kids ≡ self.old.forest.kids }
        ensures others { InForest self.old self.new × ButRingEnds self.old.forest self.new.forest }
        ensures links { self.new.forest.links ≡ self.old.forest.links }
    {
        self.forest.clear_ring_ends(b)
    }

    pub fn put_label(&mut self, i: u16, t: u16) -> Result<(), Fault>
        ensures said { (at : Progress) → Agrees (put_label i t (state_of self.old at)) result (state_of self.new at) }
        ensures size { sized self.new ≡ sized self.old }
        ensures kids { self.new.forest.kids ≡ self.old.forest.kids }
        ensures others { InLabels self.old self.new × ButLabels self.old.labels self.new.labels }
    {
        self.labelling.set_label(i, t)
    }

    pub fn put_label_end(&mut self, i: u16, p: End) -> Result<(), Fault>
        ensures said { (at : Progress) → Agrees (put_label_end i p (state_of self.old at)) result (state_of self.new at) }
        ensures size { sized self.new ≡ sized self.old }
        ensures kids { self.new.forest.kids ≡ self.old.forest.kids }
        ensures others { InLabels self.old self.new × ButLabelEnds self.old.labels self.new.labels }
    {
        self.labelling.set_label_end(i, p)
    }

    pub fn put_best(&mut self, i: u16, e: Edge) -> Result<(), Fault>
        ensures said { (at : Progress) → Agrees (put_best i e (state_of self.old at)) result (state_of self.new at) }
        ensures size { sized self.new ≡ sized self.old }
        ensures kept { Kept result self.old self.new }
        ensures kids { self.new.forest.kids ≡ self.old.forest.kids }
        ensures others { InLabels self.old self.new × ButBest self.old.labels self.new.labels }
    {
        self.labelling.set_best(i, e)
    }

    // The candidates of group b become these.
    pub fn put_best_list(&mut self, b: Group, items: &[u16]) -> Result<(), Fault>
        requires { (self.old.labels.size.nodes ≤ b) × (length items.now ≤ self.old.labels.size.nodes) }
        ensures said { (at : Progress) → Agrees (put_best_list b items.now (state_of self.old at)) result (state_of self.new at) }
        ensures size { sized self.new ≡ sized self.old }
        ensures kids { self.new.forest.kids ≡ self.old.forest.kids }
        ensures others { InLabels self.old self.new × ButBestLists self.old.labels self.new.labels }
    {
        self.labelling.set_best_list(b, items)
    }

    // A node or group has no candidates any more.
    pub fn clear_best_list(&mut self, b: Group) -> Result<(), Fault>
        ensures said { (at : Progress) → Agrees (put_best_list b [] (state_of self.old at)) result (state_of self.new at) }
        ensures size { sized self.new ≡ sized self.old }
        ensures kids { self.new.forest.kids ≡ self.old.forest.kids }
        ensures others { InLabels self.old self.new × ButBestLists self.old.labels self.new.labels }
        ensures places { self.new.labels.candidates ≡ self.old.labels.candidates }
    {
        self.labelling.clear_best_list(b)
    }

    pub fn put_allowed(&mut self, e: Edge, allowed: bool) -> Result<(), Fault>
        ensures said { (at : Progress) → Agrees (put_allowed e allowed (state_of self.old at)) result (state_of self.new at) }
        ensures size { sized self.new ≡ sized self.old }
        ensures kids { self.new.forest.kids ≡ self.old.forest.kids }
        ensures others { InLabels self.old self.new × ButAllowed self.old.labels self.new.labels }
    {
        self.labelling.set_allowed(e, allowed)
    }

    pub fn put_mate(&mut self, v: Node, p: End) -> Result<(), Fault>
        ensures said { (at : Progress) → Agrees (put_mate v p (state_of self.old at)) result (state_of self.new at) }
        ensures size { sized self.new ≡ sized self.old }
        ensures kids { self.new.forest.kids ≡ self.old.forest.kids }
        ensures others { InPairing self.old self.new × ButMates self.old.pairing self.new.pairing }
    {
        self.pairing.set_mate(v, p)
    }

    // The dual of a node or group becomes d, which is within 2^52 of zero.
    pub fn put_dual(&mut self, i: u16, d: i64) -> Result<(), Fault>
        requires { nat_abs d ≤ 4503599627370496 }
        ensures said { (at : Progress) → Agrees (put_dual i d (state_of self.old at)) result (state_of self.new at) }
        ensures size { sized self.new ≡ sized self.old }
        ensures kids { self.new.forest.kids ≡ self.old.forest.kids }
        ensures others { InPairing self.old self.new × ButDuals self.old.pairing self.new.pairing }
        ensures stays { (k : ℕ) → nat_abs d ≤ k → Near k self.old.pairing.lists.duals → Near k self.new.pairing.lists.duals }
    {
        self.pairing.set_dual(i, d)
    }

    // Node v goes on the end of the queue, which holds at most 2n.
    pub fn enqueue(&mut self, g: &Graph, v: Node) -> Result<(), Fault>
        requires { sized self.old ≡ size_of g.now }
        ensures said { (at : Progress) → Agrees (enqueue_of g.now v (state_of self.old at)) result (state_of self.new at) }
        ensures size { sized self.new ≡ sized self.old }
        ensures kids { self.new.forest.kids ≡ self.old.forest.kids }
        ensures others { InLabels self.old self.new × ButQueue self.old.labels self.new.labels }
    {
        self.labelling.enqueue(g, v)
    }
}
