// A walk back from two nodes by turns. The first group met twice ends it, and its base is the answer; else none.
// The groups that the walk has passed are marked in a copy of the labels, so the labels need no restoring.
ghost use Rattle.std.specs.Prelude.{if◌then◌else◌, ◌≡◌, ◌*◌, None, length};
ghost use Rattle.std.specs.Option.{is_some};
ghost use Rattle.matching.specs.Graph.{missing, is_missing};
ghost use Rattle.steps.specs.State.{Progress};
ghost use Rattle.steps.specs.Scan.{is_mark, over_label2, step_back as step_back_of, pass_on as pass_on_of, walk_move as walk_move_of, scan as scan_of};
ghost use Rattle.numbers.specs.Answers.{Answers};
ghost use Rattle.state.specs.Parts.{state_of};
ghost use Rattle.state.specs.Walks.{AnswersBase, Bases, walk_of, stopped, Walks};

use crate::lists::Lists;
use edges::graph::Graph;
use numbers::faults::{Fault, must, present, read, store};
use numbers::{End, Group, MISSING, Node};

// What the label of a group has besides where the walk has passed it.
const MARK: u16 = 4;

// A label has the mark; a missing one counts as marked.
fn is_marked(l: u16) -> bool
    ensures { result ≡ is_mark l }
{
    l == MISSING || l / MARK % 2 == 1
}

// The two places of a walk, of which v moves next, and the base where a mark is met.
#[derive(Clone, Copy, Debug, PartialEq, Eq)]
pub struct Walk {
    pub v: Node,
    pub w: Node,
    pub met: Option<Node>,
}

// A mark is met, or both paths have ended.
fn ended(k: &Walk) -> bool
    ensures { result ≡ stopped (is_some k.now.met) k.now.v k.now.w }
{
    k.met.is_some() || (k.v.is_missing() && k.w.is_missing())
}

// The base that the walk has met, where it is not missing.
fn base_met(k: &Walk) -> Option<Node>
    ensures { Bases k.now.met result }
{
    k.met.filter(|base| !base.is_missing())
}

// The walk after a step back to x: the other path has the next turn unless it has ended.
fn next_turn(w: Node, x: Node) -> Walk
    ensures v { result.v ≡ (if is_missing w then x else w) }
    ensures w { result.w ≡ (if is_missing w then missing else x) }
    ensures none { result.met ≡ None }
{
    if w.is_missing() {
        Walk {
            v: x,
            w: Node::missing(),
            met: None,
        }
    } else {
        Walk {
            v: w,
            w: x,
            met: None,
        }
    }
}

impl<'a> Lists<'a> {
    // From the end e through which a label-1 group was reached, over the label-2 group there, to a node of the group before.
    #[tactic(auto, unfolding(steps::specs::Scan::over_label2))]
    pub fn over_label_two(&self, g: &Graph, marks: &[u16], e: End) -> Result<Node, Fault>
        ensures { (at : Progress) → Answers (over_label2 g.now (state_of self.now at) marks.now e) result }
    {
        let u = g.endpoint(e)?;
        let t = self.forest.top(u)?;
        let l = read(marks, t.number())?;
        must(l == 2)?;
        let f = self.labelling.label_end(t)?;
        present(f.number())?;
        g.endpoint(f)
    }

    // One step back from the label-1 group b; missing at a root.
    #[tactic(auto, unfolding(steps::specs::Scan::step_back))]
    pub fn step_back(&self, g: &Graph, marks: &[u16], b: Group) -> Result<Node, Fault>
        ensures { (at : Progress) → Answers (step_back_of g.now (state_of self.now at) marks.now b) result }
    {
        let e = self.labelling.label_end(b)?;
        let m = self.base_mate(b)?;
        must(e == m)?;
        if e.is_missing() {
            return Ok(Node::missing());
        }
        self.over_label_two(g, marks, e)
    }

    // Group b is marked, and its path goes one step back.
    #[tactic(auto, unfolding(steps::specs::Scan::pass_on))]
    pub fn pass_on(&self, g: &Graph, marks: &mut [u16], b: Group, k: &Walk) -> Result<Walk, Fault>
        ensures { (at : Progress) → Walks (pass_on_of g.now (state_of self.now at) b (walk_of k.now marks.old)) result marks.new }
    {
        let l = read(marks, b.number())?;
        must(l == 1)?;
        store(marks, b.number(), 1 + MARK)?;
        let x = self.step_back(g, marks, b)?;
        Ok(next_turn(k.w, x))
    }

    // The turn of the path that stands at v.
    #[tactic(auto, unfolding(steps::specs::Scan::walk_move, steps::specs::Scan::meet))]
    pub fn walk_move(&self, g: &Graph, marks: &mut [u16], k: &Walk) -> Result<Walk, Fault>
        ensures { (at : Progress) → Walks (walk_move_of g.now (state_of self.now at) (walk_of k.now marks.old)) result marks.new }
    {
        present(k.v.number())?;
        let b = self.forest.top(k.v)?;
        let l = read(marks, b.number())?;
        if is_marked(l) {
            let base = self.forest.base(b)?;
            return Ok(Walk {
                v: k.v,
                w: k.w,
                met: Some(base),
            });
        }
        self.pass_on(g, marks, b, k)
    }

    // The base where the paths from a and from b meet, if they do; at most 2n turns. Marks is room for a copy of the labels.
    #[tactic(auto, using(crate::proofs::ScanLaws::scan_turns), unfolding(steps::specs::Scan::scan))]
    pub fn scan(
        &self,
        g: &Graph,
        marks: &mut [u16],
        a: Node,
        b: Node,
    ) -> Result<Option<Node>, Fault>
        requires { length marks.old ≡ 2 * self.now.labels.size.nodes }
        ensures { (at : Progress) → AnswersBase (scan_of g.now a b (state_of self.now at)) result }
    {
        self.labelling.copy_labels(marks);
        let mut k = Walk {
            v: a,
            w: b,
            met: None,
        };
        for _ in 0..g.numbers() {
            if ended(&k) {
                return Ok(base_met(&k));
            }
            k = self.walk_move(g, marks, &k)?;
        }
        must(ended(&k))?;
        Ok(base_met(&k))
    }
}
