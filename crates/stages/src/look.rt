// Looking at the neighbours of a taken node. Most of their visits change nothing, or only the best edge of the node's group: a look,
// which stores nothing, tells so. What a look does not settle is left for a whole visit.
ghost use Rattle.std.specs.Prelude.{◌≡◌, false, ℕ, ◌/◌, ◌-◌, drop, length};
ghost use Rattle.std.specs.Result.{IfOk};
ghost use Rattle.laws.specs.Run.{ok};
ghost use Rattle.matching.specs.Graph.{is_missing};
ghost use Rattle.steps.specs.Ends.{slack_of};
ghost use Rattle.steps.specs.State.{Progress};
ghost use Rattle.steps.specs.Steps.{is_closing, keep_best, keep_edge, pass_edge, visit as visit_of, visit_all};
ghost use Rattle.steps.specs.Stores.{with_best};
ghost use Rattle.state.specs.Parts.{state_of, sized};
ghost use Rattle.stages.specs.Look.{Turns, Sees, Of, Keen};
ghost use Rattle.state.specs.Keeps.{ButBest, InLabels};

use crate::keep::Met;
use edges::graph::Graph;
use numbers::faults::Fault;
use numbers::{Edge, End, Group, Node};
use state::lists::Lists;

// What a look says of a visit.
#[derive(Clone, Copy, Debug, PartialEq, Eq)]
enum Seen {
    // it changes nothing
    Pass,
    // the edge, of this slack, is the best one yet of the taken node's group
    Own(i64),
    // anything else
    Rest,
}

// What the looks are given stands in the clause of each (`Of`, `Keen`): the node's group, and the slack of its best edge. A struct of them would
// hold the lists, which change between two looks.

// The slack of the best edge at i, where there is one.
#[tactic(auto, unfolding(crate::specs::Look::best_slack))]
fn keenness(g: &Graph, lists: &Lists, i: u16) -> Option<i64>
    ensures { Keen g.now lists.now i result }
{
    let b = lists.best(i).ok()?;
    if b.is_missing() {
        return None;
    }
    lists.slack(g, b).ok()
}

// An edge of slack k to the free node w.
#[tactic(auto, using(crate::proofs::Looks::keeps))]
fn look_free(g: &Graph, lists: &Lists, w: Node, e: Edge, k: i64) -> Seen
    ensures { (at : Progress) (i : ℕ) → Sees result g.now i e (keep_best g.now w e k) lists.now at }
{
    match keenness(g, lists, w.number()) {
        Some(d) => if k < d { Seen::Rest } else { Seen::Pass },
        None => Seen::Rest,
    }
}

// An edge e, of slack k above 0, that is not allowed, from a node of group i; keen is the slack of the group's best edge.
#[tactic(auto, using(crate::proofs::Looks::keeps), unfolding(steps::specs::Steps::keep_edge))]
fn look_edge(g: &Graph, lists: &Lists, keen: Option<i64>, met: Met, e: Edge, k: i64) -> Seen
    requires slack { slack_of g.now lists.now.pairing.lists.duals e ≡ ok k }
    requires edge { is_missing e ≡ false }
    ensures { (at : Progress) (v i : ℕ) → Of lists.now v i → Keen g.now lists.now i keen → Sees result g.now i e (keep_edge g.now v met.node e met.group_label met.label k) lists.now at }
{
    if met.group_label == 1 {
        return match keen {
            Some(d) => if k < d { Seen::Own(k) } else { Seen::Pass },
            None => Seen::Rest,
        };
    }
    if met.label != 0 {
        return Seen::Pass;
    }
    look_free(g, lists, met.node, e, k)
}

// The edge at end p to node w of another group, j, from a node whose group's best edge has slack keen.
#[tactic(auto, unfolding(steps::specs::Steps::pass_edge, steps::specs::Steps::use_edge))]
fn look_over(
    g: &Graph,
    lists: &Lists,
    keen: Option<i64>,
    w: Node,
    j: Group,
    p: End,
) -> Result<Seen, Fault>
    ensures { (turns : Turns) (at : Progress) (v i : ℕ) → Of lists.now v i → Of lists.now w j → Keen g.now lists.now i keen → IfOk result (λ r. Sees r g.now i (p / 2) (pass_edge turns g.now v w p) lists.now at) }
{
    let group_label = lists.label(j.number())?;
    let label = lists.label(w.number())?;
    let e = p.edge();
    if lists.is_allowed(e)? {
        return Ok(if group_label < 2 || label == 0 {
            Seen::Rest
        } else {
            Seen::Pass
        });
    }
    let k = lists.slack(g, e)?;
    if k <= 0 {
        return Ok(Seen::Rest);
    }
    let met = Met {
        node: w,
        group_label,
        label,
    };
    Ok(look_edge(g, lists, keen, met, e, k))
}

// The neighbour at end p of a node of group i.
#[tactic(auto, unfolding(steps::specs::Steps::visit))]
fn look(g: &Graph, lists: &Lists, i: Group, keen: Option<i64>, p: End) -> Result<Seen, Fault>
    ensures { (turns : Turns) (at : Progress) (v : ℕ) → Of lists.now v i → Keen g.now lists.now i keen → IfOk result (λ r. Sees r g.now i (p / 2) (visit_of turns g.now v p) lists.now at) }
{
    let w = g.endpoint(p)?;
    let j = lists.top(w)?;
    if i == j {
        return Ok(Seen::Pass);
    }
    look_over(g, lists, keen, w, j, p)
}

// The neighbours of v at the ends of a row in order, until one is left for a whole visit; the answer is the rest of the row, from its
// end on. A look that faults leaves the neighbour to the visit, which faults too.
#[tactic(auto, using(crate::proofs::Looks::rests))]
pub fn look_on<'r>(g: &Graph, lists: &mut Lists, v: Node, row: &'r [u16]) -> &'r [u16]
    ensures end { result.now ≡ drop (length row.now - length result.now) row.now }
    ensures said { (turns : Turns) (at : Progress) → is_closing at.phase ≡ false → visit_all turns g.now v result.now (state_of lists.new at) ≡ visit_all turns g.now v row.now (state_of lists.old at) }
    ensures best { (at : Progress) → state_of lists.new at ≡ with_best lists.new.labels.lists.best (state_of lists.old at) }
    ensures size { sized lists.new ≡ sized lists.old }
    ensures kids { lists.new.forest.kids ≡ lists.old.forest.kids }
    ensures others { InLabels lists.old lists.new × ButBest lists.old.labels lists.new.labels }
{
    let Ok(group) = lists.top(v) else {
        return row;
    };
    let mut keen = keenness(g, lists, group.number());
    let mut left = row;
    while let Some((&p, rest)) = left.split_first() {
        let p = End::of(p);
        match look(g, lists, group, keen, p).unwrap_or(Seen::Rest) {
            Seen::Pass => {}
            Seen::Own(k) => {
                if lists.put_best(group.number(), p.edge()).is_err() {
                    return left;
                }
                keen = Some(k);
            }
            Seen::Rest => return left,
        }
        left = rest;
    }
    left
}
