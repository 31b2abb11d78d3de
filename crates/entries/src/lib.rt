// The plan call and the check call on an edge list lent as a list of edge entries. `split` reads the entries into three lists, and the
// core works on those.
#![tactic(auto)]

ghost use Rattle.std.specs.Prelude.{◌≡◌, pos, length, replicate, take};
ghost use Rattle.matching.specs.Graph.{missing};
ghost use Rattle.matching.specs.Tests.{YES};
ghost use Rattle.steps.specs.Check.{JUDGED, check as check_of};
ghost use Rattle.steps.specs.Plan.{DONE, plan as planned};
ghost use Rattle.certificate.specs.Lists.{room, certificate_of};
ghost use Rattle.certificate.specs.View.{cause_of, judgement_of};
ghost use Rattle.plan.specs.View.{answer_of, plan_of};
ghost use Rattle.entries.specs.Entries.{lists_of};
ghost use Rattle.entries.specs.Calls.{edges_of, overfull, check_counted, plan_counted};

use certificate::answers::{Cause, Verdict};
use clearing::{clear, clear_duals};
use plan::answers::Answer;

// An edge: its two nodes and its weight.
#[derive(Clone, Copy, Debug, PartialEq, Eq)]
pub struct EdgeEntry {
    pub first: u16,
    pub second: u16,
    pub weight: i64,
}

// The fields of edge entries, each in a list of its own, and how many entries there are.
#[derive(Drop)]
pub struct EdgeLists {
    pub first: [u16; 2048],
    pub second: [u16; 2048],
    pub weight: [i64; 2048],
    pub count: usize,
}

// Of more than 2,048 entries none is copied, and the count tells. Document 01 has the outer functions read the entries by hand.
fn split(edges: &[EdgeEntry]) -> EdgeLists
    ensures { result ≡ lists_of edges.now }
{
    let mut first: [u16; 2048] = [0; 2048];
    let mut second: [u16; 2048] = [0; 2048];
    let mut weight: [i64; 2048] = [0; 2048];
    let count = edges.len();
    let mut i = 0;
    if count <= 2048 {
        while i < count {
            let e = edges[i];
            first[i] = e.first;
            second[i] = e.second;
            weight[i] = e.weight;
            i += 1;
        }
    }
    EdgeLists {
        first,
        second,
        weight,
        count,
    }
}

// The refusal of too many entries: NODES comes before EDGES.
fn too_many(n: usize) -> Cause
    ensures { cause_of result ≡ overfull n }
{
    if 64 < n { Cause::Nodes } else { Cause::Edges }
}

fn check_lists(
    n: usize,
    s: EdgeLists,
    max_cardinality: bool,
    mates: &[u16],
    duals: &[i64],
    parents: &[u16],
) -> Verdict
    ensures { judgement_of result ≡ check_counted n s.count (take s.count s.first) (take s.count s.second) (take s.count s.weight) max_cardinality (certificate_of mates.now duals.now parents.now) }
{
    let m = s.count;
    if 2048 < m {
        return Verdict::Refused(too_many(n));
    }
    let first = s.first;
    let second = s.second;
    let weight = s.weight;
    certificate::check(
        n,
        &first[..m],
        &second[..m],
        &weight[..m],
        max_cardinality,
        mates,
        duals,
        parents,
    )
}

// The check call. It reads its lists only.
pub fn check(
    n: usize,
    edges: &[EdgeEntry],
    max_cardinality: bool,
    mates: &[u16],
    duals: &[i64],
    parents: &[u16],
) -> Verdict
    ensures { judgement_of result ≡ check_of n (edges_of edges.now) max_cardinality (certificate_of mates.now duals.now parents.now) }
{
    check_lists(n, split(edges), max_cardinality, mates, duals, parents)
}

// The lent lists come cleared, and stay so where there are too many entries.
fn plan_lists(
    n: usize,
    s: EdgeLists,
    max_cardinality: bool,
    budget: u32,
    mates: &mut [u16],
    duals: &mut [i64],
    parents: &mut [u16],
) -> Answer
    requires mates { mates.old ≡ replicate (length mates.old) missing }
    requires duals { duals.old ≡ replicate (length duals.old) (pos 0) }
    requires parents { parents.old ≡ replicate (length parents.old) missing }
    ensures { plan_of result mates.new duals.new parents.new ≡ plan_counted (room (length mates.old) (length duals.old) (length parents.old)) n s.count (take s.count s.first) (take s.count s.second) (take s.count s.weight) max_cardinality budget }
{
    let m = s.count;
    if 2048 < m {
        return Answer::Refused(too_many(n));
    }
    let first = s.first;
    let second = s.second;
    let weight = s.weight;
    plan::plan(
        n,
        &first[..m],
        &second[..m],
        &weight[..m],
        max_cardinality,
        budget,
        mates,
        duals,
        parents,
    )
}

// The plan call. The three lent lists are cleared over their whole length before an entry is read. Where it is DONE they hold the
// certificate, to which the check call answers YES; otherwise they stay cleared.
pub fn plan(
    n: usize,
    edges: &[EdgeEntry],
    max_cardinality: bool,
    budget: u32,
    mates: &mut [u16],
    duals: &mut [i64],
    parents: &mut [u16],
) -> Answer
    ensures said { plan_of result mates.new duals.new parents.new ≡ planned (room (length mates.old) (length duals.old) (length parents.old)) n (edges_of edges.now) max_cardinality budget }
    ensures agreed { answer_of result ≡ DONE → check_of n (edges_of edges.now) max_cardinality (certificate_of mates.new duals.new parents.new) ≡ JUDGED YES }
{
    clear(mates);
    clear_duals(duals);
    clear(parents);
    plan_lists(
        n,
        split(edges),
        max_cardinality,
        budget,
        mates,
        duals,
        parents,
    )
}
