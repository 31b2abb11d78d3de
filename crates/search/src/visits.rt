// Visiting the neighbours of a taken node. The answers say whether the matching was augmented.
ghost use Rattle.std.specs.Prelude.{if◌then◌else◌, ◌≡◌, ◌/◌, false, pos, eqb};
ghost use Rattle.laws.specs.Run.{ok};
ghost use Rattle.matching.specs.Graph.{is_group};
ghost use Rattle.steps.specs.Ends.{slack_of};
ghost use Rattle.steps.specs.State.{Progress};
ghost use Rattle.steps.specs.Steps.{is_closing, join as join_of, use_edge as use_edge_of, pass_edge as pass_edge_of, visit as visit_of, visit_all as visit_all_of};
ghost use Rattle.numbers.specs.Answers.{Answers};
ghost use Rattle.state.specs.Parts.{state_of, sized, size_of};
ghost use Rattle.search.specs.Visits.{Visits, joins, joins_at};
ghost use Rattle.state.specs.Keeps.{Relabelled};

use crate::scratch::Scratch;
use augment::augment_matching;
use edges::graph::Graph;
use numbers::faults::Fault;
use numbers::{Edge, End, Node};
use stages::keep::{Met, keep_edge, reach};
use stages::look::look_on;
use state::lists::Lists;

// The edge e between two label-1 groups closes a ring, which becomes a group, or ends a path.
#[tactic(auto, unfolding(steps::specs::Steps::join))]
fn join(
    g: &Graph,
    lists: &mut Lists,
    scratch: &mut Scratch,
    v: Node,
    w: Node,
    e: Edge,
) -> Result<bool, Fault>
    requires { (sized lists.old ≡ size_of g.now) × (scratch.old ≡ g.now.nodes) }
    ensures said { (at : Progress) → Visits (join_of is_group g.now v w e (state_of lists.old at)) result lists.new at }
    ensures size { sized lists.new ≡ sized lists.old }
    ensures room { scratch.new ≡ scratch.old }
    ensures free { lists.new.forest.free_places ≡ lists.old.forest.free_places }
{
    if let Some(base) = scratch.scan(g, lists, v, w)? {
        scratch.add_group(g, lists, base, e)?;
        return Ok(false);
    }
    augment_matching(g, lists, e)?;
    Ok(true)
}

// The edge at end p is allowed.
#[tactic(auto, unfolding(steps::specs::Steps::use_edge))]
fn use_edge(
    g: &Graph,
    lists: &mut Lists,
    scratch: &mut Scratch,
    v: Node,
    met: Met,
    p: End,
) -> Result<bool, Fault>
    requires { (sized lists.old ≡ size_of g.now) × (scratch.old ≡ g.now.nodes) }
    ensures said { (at : Progress) → Visits (use_edge_of is_group g.now v met.node p met.group_label met.label (state_of lists.old at)) result lists.new at }
    ensures size { sized lists.new ≡ sized lists.old }
    ensures room { scratch.new ≡ scratch.old }
    ensures free { lists.new.forest.free_places ≡ lists.old.forest.free_places }
    ensures others { eqb met.group_label 1 ≡ false → Relabelled lists.old lists.new }
{
    if met.group_label == 0 {
        lists.label_two(g, met.node, p.beside())?;
        return Ok(false);
    }
    if met.group_label == 1 {
        return join(g, lists, scratch, v, met.node, p.edge());
    }
    if met.label == 0 {
        reach(lists, met.node, p)?;
    }
    Ok(false)
}

// The slack of edge e, which counts as 0 where the edge is allowed.
fn slack(g: &Graph, lists: &Lists, allowed: bool, e: Edge) -> Result<i64, Fault>
    ensures { Answers (if allowed then ok (pos 0) else slack_of g.now lists.now.pairing.lists.duals e) result }
{
    if allowed { Ok(0) } else { lists.slack(g, e) }
}

// The edge at end p, which leads to node w of another group: is it allowed, and else what is its slack?
#[tactic(auto, unfolding(steps::specs::Steps::pass_edge))]
fn pass_edge(
    g: &Graph,
    lists: &mut Lists,
    scratch: &mut Scratch,
    v: Node,
    w: Node,
    p: End,
) -> Result<bool, Fault>
    requires { (sized lists.old ≡ size_of g.now) × (scratch.old ≡ g.now.nodes) }
    ensures said { (at : Progress) → Visits (pass_edge_of is_group g.now v w p (state_of lists.old at)) result lists.new at }
    ensures size { sized lists.new ≡ sized lists.old }
    ensures room { scratch.new ≡ scratch.old }
    ensures free { lists.new.forest.free_places ≡ lists.old.forest.free_places }
    ensures others { joins g.now lists.old w (p / 2) ≡ false → Relabelled lists.old lists.new }
{
    let e = p.edge();
    let allowed = lists.is_allowed(e)?;
    let k = slack(g, lists, allowed, e)?;
    if !allowed && k <= 0 {
        lists.put_allowed(e, true)?;
    }
    let now = lists.is_allowed(e)?;
    let t = lists.top(w)?;
    let group_label = lists.label(t.number())?;
    let label = lists.label(w.number())?;
    let met = Met {
        node: w,
        group_label,
        label,
    };
    if now {
        return use_edge(g, lists, scratch, v, met, p);
    }
    keep_edge(g, lists, v, met, e, k)?;
    Ok(false)
}

// The neighbour at end p; an edge within one group is passed over.
#[tactic(auto, unfolding(steps::specs::Steps::visit))]
fn visit(
    g: &Graph,
    lists: &mut Lists,
    scratch: &mut Scratch,
    v: Node,
    p: End,
) -> Result<bool, Fault>
    requires { (sized lists.old ≡ size_of g.now) × (scratch.old ≡ g.now.nodes) }
    ensures said { (at : Progress) → Visits (visit_of is_group g.now v p (state_of lists.old at)) result lists.new at }
    ensures size { sized lists.new ≡ sized lists.old }
    ensures room { scratch.new ≡ scratch.old }
    ensures free { lists.new.forest.free_places ≡ lists.old.forest.free_places }
    ensures others { joins_at g.now lists.old v p ≡ false → Relabelled lists.old lists.new }
{
    let w = g.endpoint(p)?;
    let from = lists.top(v)?;
    let to = lists.top(w)?;
    if from == to {
        return Ok(false);
    }
    pass_edge(g, lists, scratch, v, w, p)
}

// The neighbours at the ends of a row in order, until they end or the matching is augmented. One that a look settles isn't visited.
#[tactic(auto, using(crate::proofs::VisitLaws::visits))]
pub(crate) fn visit_all(
    g: &Graph,
    lists: &mut Lists,
    scratch: &mut Scratch,
    v: Node,
    row: &[u16],
) -> Result<bool, Fault>
    requires { (sized lists.old ≡ size_of g.now) × (scratch.old ≡ g.now.nodes) }
    ensures said { (at : Progress) → is_closing at.phase ≡ false → Visits (visit_all_of is_group g.now v row.now (state_of lists.old at)) result lists.new at }
    ensures size { sized lists.new ≡ sized lists.old }
    ensures room { scratch.new ≡ scratch.old }
    ensures free { lists.new.forest.free_places ≡ lists.old.forest.free_places }
{
    let mut left = row;
    while let Some((&p, rest)) = look_on(g, lists, v, left).split_first() {
        if visit(g, lists, scratch, v, End::of(p))? {
            return Ok(true);
        }
        left = rest;
    }
    Ok(false)
}
