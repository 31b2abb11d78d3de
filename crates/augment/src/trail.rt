// Back along a path from one end of an edge to the root, node by node.
ghost use Rattle.std.specs.Prelude.{◌≡◌, false};
ghost use Rattle.matching.specs.Graph.{is_group};
ghost use Rattle.steps.specs.State.{Progress};
ghost use Rattle.steps.specs.Augment.{through_label1, through_label2, trail_move as trail_move_of, match_trail as match_trail_of};
ghost use Rattle.numbers.specs.Answers.{Agrees};
ghost use Rattle.state.specs.Parts.{state_of, sized};
ghost use Rattle.augment.specs.Trails.{Reaches, Leads, Moves, on_trail};
ghost use Rattle.state.specs.Keeps.{Turned};

use crate::turn::augment_top;
use edges::graph::Graph;
use numbers::faults::{Fault, must, present};
use numbers::{End, Node};
use state::lists::Lists;

// Node v is to be matched by end p.
#[derive(Clone, Copy, Debug, PartialEq, Eq)]
pub(crate) struct Place {
    pub v: Node,
    pub p: End,
}

// The label-1 group of v is turned and v matched by end p; the answer is the end through which the group was reached.
#[tactic(auto, unfolding(steps::specs::Augment::through_label1))]
fn through_one(g: &Graph, lists: &mut Lists, v: Node, p: End) -> Result<End, Fault>
    ensures said { (at : Progress) → Reaches (through_label1 is_group g.now v p (state_of lists.old at)) result (state_of lists.new at) }
    ensures size { sized lists.new ≡ sized lists.old }
    ensures others { Turned lists.old lists.new }
{
    let b = lists.top(v)?;
    let l = lists.label(b.number())?;
    must(l == 1)?;
    let e = lists.label_end(b)?;
    let m = lists.base_mate(b)?;
    must(e == m)?;
    augment_top(g, lists, b, v)?;
    lists.put_mate(v, p)?;
    Ok(e)
}

// The label-2 group at end e is turned, and the next node to match is found.
#[tactic(auto, unfolding(steps::specs::Augment::through_label2))]
fn through_two(g: &Graph, lists: &mut Lists, e: End) -> Result<Place, Fault>
    ensures said { (at : Progress) → Leads (through_label2 is_group g.now e (state_of lists.old at)) result (state_of lists.new at) }
    ensures size { sized lists.new ≡ sized lists.old }
    ensures others { Turned lists.old lists.new }
{
    let t = g.endpoint(e)?;
    let b = lists.top(t)?;
    let l = lists.label(b.number())?;
    must(l == 2)?;
    let f = lists.label_end(b)?;
    present(f.number())?;
    let v = g.endpoint(f)?;
    let j = g.endpoint(f.beside())?;
    let base = lists.base(b)?;
    must(base == t)?;
    augment_top(g, lists, b, j)?;
    lists.put_mate(j, f)?;
    Ok(Place { v, p: f.beside() })
}

// A node is matched, and the next is found, if its root has not been reached.
#[tactic(auto, unfolding(steps::specs::Augment::trail_move))]
fn trail_move(g: &Graph, lists: &mut Lists, here: Place) -> Result<Option<Place>, Fault>
    ensures said { (at : Progress) → Moves here (trail_move_of is_group g.now (on_trail here.v here.p false (state_of lists.old at))) result (state_of lists.new at) }
    ensures size { sized lists.new ≡ sized lists.old }
    ensures others { Turned lists.old lists.new }
{
    let e = through_one(g, lists, here.v, here.p)?;
    if e.is_missing() {
        return Ok(None);
    }
    let next = through_two(g, lists, e)?;
    Ok(Some(next))
}

// Node v is matched by end p, and so on back to the root: at most 2n moves.
#[tactic(auto, using(crate::proofs::TrailLaws::trails), unfolding(steps::specs::Augment::match_trail))]
pub(crate) fn match_trail(g: &Graph, lists: &mut Lists, v: Node, p: End) -> Result<(), Fault>
    ensures said { (at : Progress) → Agrees (match_trail_of is_group g.now v p (state_of lists.old at)) result (state_of lists.new at) }
    ensures size { sized lists.new ≡ sized lists.old }
    ensures others { Turned lists.old lists.new }
{
    let mut here = Place { v, p };
    for _ in 0..g.numbers() {
        match trail_move(g, lists, here)? {
            Some(next) => here = next,
            None => return Ok(()),
        }
    }
    Err(Fault)
}
