// The amount of a dual adjustment: the least of four types, numbered as in the source.
ghost use Rattle.std.specs.Prelude.{◌≡◌, ◌≤◌, ◌*◌, nat_abs};
ghost use Rattle.std.specs.Result.{IfOk};
ghost use Rattle.laws.specs.Run.{for_range};
ghost use Rattle.numbers.specs.Answers.{Answers};
ghost use Rattle.numbers.specs.Near.{Near};
ghost use Rattle.steps.specs.State.{Progress};
ghost use Rattle.steps.specs.Adjust.{less_than as less_than_of, least_dual, delta1, offer2, delta2_at, offer3, delta3_at, delta4_at, delta_last as delta_last_of, choose_delta};
ghost use Rattle.state.specs.Parts.{state_of, sized, size_of};
ghost use Rattle.stages.specs.Deltas.{least_of, AnswersDelta, AnswersLeast, Small, SmallOr};

use edges::graph::Graph;
use numbers::faults::{Fault, must};
use numbers::{Edge, Group, Node};
use state::lists::Lists;

// The type of an amount, with the edge or group that gave it.
#[derive(Clone, Copy, Debug, PartialEq, Eq)]
pub enum By {
    One,
    Two(Edge),
    Three(Edge),
    Four(Group),
}

#[derive(Clone, Copy, Debug, PartialEq, Eq)]
pub struct Delta {
    pub amount: i64,
    pub by: By,
}

// Whether d is below the least amount so far. By a match: the amount is lent, since what holds a number is not copied, and `as_ref` before
// `is_none_or` would be no plainer.
#[tactic(auto, using(crate::proofs::Amounts::belows))]
fn less_than(d: i64, best: &Option<Delta>) -> bool
    ensures { result ≡ less_than_of d (least_of best.now) }
{
    match best {
        Some(b) => d < b.amount,
        None => true,
    }
}

// The least of a list that is not empty.
fn least(duals: &[i64]) -> Result<i64, Fault>
    requires { Near 4503599627370496 duals.now }
    ensures said { Answers (least_dual duals.now) result }
    ensures near { IfOk result (λ d. nat_abs d ≤ 4503599627370496) }
{
    duals.iter().copied().min().ok_or(Fault)
}

// Type 1, without the flag: the least node dual.
#[tactic(auto, unfolding(steps::specs::Adjust::delta1))]
fn delta_one(g: &Graph, lists: &Lists, flag: bool) -> Result<Option<Delta>, Fault>
    requires { sized lists.now ≡ size_of g.now }
    ensures said { (at : Progress) → AnswersLeast (delta1 g.now flag (state_of lists.now at)) result }
    ensures small { IfOk result SmallOr }
{
    if flag {
        return Ok(None);
    }
    let d = least(lists.node_duals())?;
    Ok(Some(Delta {
        amount: d,
        by: By::One,
    }))
}

#[tactic(auto, unfolding(steps::specs::Adjust::offer2))]
fn offer_two(g: &Graph, lists: &Lists, e: Edge, best: Option<Delta>) -> Result<Option<Delta>, Fault>
    requires { SmallOr best }
    ensures said { (at : Progress) → AnswersLeast (offer2 g.now (state_of lists.now at) e (least_of best)) result }
    ensures small { IfOk result SmallOr }
{
    let d = lists.slack(g, e)?;
    if less_than(d, &best) {
        return Ok(Some(Delta {
            amount: d,
            by: By::Two(e),
        }));
    }
    Ok(best)
}

// Type 2: the edge from a label-1 group to node v, where v is free.
#[tactic(auto, unfolding(steps::specs::Adjust::delta2_at))]
fn delta_two_at(
    g: &Graph,
    lists: &Lists,
    v: Node,
    best: Option<Delta>,
) -> Result<Option<Delta>, Fault>
    requires { SmallOr best }
    ensures said { (at : Progress) → AnswersLeast (delta2_at g.now (state_of lists.now at) v (least_of best)) result }
    ensures small { IfOk result SmallOr }
{
    let t = lists.top(v)?;
    let l = lists.label(t.number())?;
    let e = lists.best(v.number())?;
    if l == 0 && !e.is_missing() {
        return offer_two(g, lists, e, best);
    }
    Ok(best)
}

// Half the slack, which is even.
#[tactic(auto, unfolding(steps::specs::Adjust::offer3))]
fn offer_three(
    g: &Graph,
    lists: &Lists,
    e: Edge,
    best: Option<Delta>,
) -> Result<Option<Delta>, Fault>
    requires { SmallOr best }
    ensures said { (at : Progress) → AnswersLeast (offer3 g.now (state_of lists.now at) e (least_of best)) result }
    ensures small { IfOk result SmallOr }
{
    let k = lists.slack(g, e)?;
    must(k.unsigned_abs() % 2 == 0)?;
    let d = k / 2;
    if less_than(d, &best) {
        return Ok(Some(Delta {
            amount: d,
            by: By::Three(e),
        }));
    }
    Ok(best)
}

// Type 3: the edge between two label-1 groups, of which b is one.
#[tactic(auto, unfolding(steps::specs::Adjust::delta3_at))]
fn delta_three_at(
    g: &Graph,
    lists: &Lists,
    b: Group,
    best: Option<Delta>,
) -> Result<Option<Delta>, Fault>
    requires { SmallOr best }
    ensures said { (at : Progress) → AnswersLeast (delta3_at g.now (state_of lists.now at) b (least_of best)) result }
    ensures small { IfOk result SmallOr }
{
    let p = lists.parent(b)?;
    let l = lists.label(b.number())?;
    let e = lists.best(b.number())?;
    if p.is_missing() && l == 1 && !e.is_missing() {
        return offer_three(g, lists, e, best);
    }
    Ok(best)
}

// Type 4: the dual of an outermost label-2 group.
#[tactic(auto, unfolding(steps::specs::Adjust::delta4_at))]
fn delta_four_at(lists: &Lists, b: Group, best: Option<Delta>) -> Result<Option<Delta>, Fault>
    requires { SmallOr best }
    ensures said { (at : Progress) → AnswersLeast (delta4_at (state_of lists.now at) b (least_of best)) result }
    ensures small { IfOk result SmallOr }
{
    if !lists.is_outermost(b)? {
        return Ok(best);
    }
    let l = lists.label(b.number())?;
    let d = lists.dual(b.number())?;
    if l == 2 && less_than(d, &best) {
        return Ok(Some(Delta {
            amount: d,
            by: By::Four(b),
        }));
    }
    Ok(best)
}

// Type 2 over all nodes. The types stand apart, as in the definition: each has its own range and its own test.
#[tactic(auto, using(laws::proofs::Ranges::ranges))]
fn delta_two(g: &Graph, lists: &Lists, best: Option<Delta>) -> Result<Option<Delta>, Fault>
    requires { SmallOr best }
    ensures said { (at : Progress) → AnswersLeast (for_range (delta2_at g.now (state_of lists.now at)) 0 g.now.nodes (least_of best)) result }
    ensures small { IfOk result SmallOr }
{
    let mut d = best;
    for v in 0..g.nodes() {
        d = delta_two_at(g, lists, Node::of(v), d)?;
    }
    Ok(d)
}

// Type 3 over all nodes and groups.
#[tactic(auto, using(laws::proofs::Ranges::ranges))]
fn delta_three(g: &Graph, lists: &Lists, best: Option<Delta>) -> Result<Option<Delta>, Fault>
    requires { SmallOr best }
    ensures said { (at : Progress) → AnswersLeast (for_range (delta3_at g.now (state_of lists.now at)) 0 (2 * g.now.nodes) (least_of best)) result }
    ensures small { IfOk result SmallOr }
{
    let mut d = best;
    for b in 0..g.numbers() {
        d = delta_three_at(g, lists, Group::of(b), d)?;
    }
    Ok(d)
}

// Type 4 over all groups.
#[tactic(auto, using(laws::proofs::Ranges::ranges))]
fn delta_four(g: &Graph, lists: &Lists, best: Option<Delta>) -> Result<Option<Delta>, Fault>
    requires { SmallOr best }
    ensures said { (at : Progress) → AnswersLeast (for_range (delta4_at (state_of lists.now at)) g.now.nodes g.now.nodes (least_of best)) result }
    ensures small { IfOk result SmallOr }
{
    let mut d = best;
    for b in g.nodes()..g.numbers() {
        d = delta_four_at(lists, Group::of(b), d)?;
    }
    Ok(d)
}

// No candidate under the flag: the larger of 0 and the least node dual.
#[tactic(auto, unfolding(steps::specs::Adjust::delta_last))]
fn delta_last(g: &Graph, lists: &Lists, best: Option<Delta>) -> Result<Delta, Fault>
    requires small { SmallOr best }
    requires size { sized lists.now ≡ size_of g.now }
    ensures said { (at : Progress) → AnswersDelta (delta_last_of g.now (state_of lists.now at) (least_of best)) result }
    ensures small { IfOk result Small }
{
    match best {
        Some(d) => Ok(d),
        None => {
            let d = least(lists.node_duals())?;
            Ok(Delta {
                amount: d.max(0),
                by: By::One,
            })
        }
    }
}

// The least amount of all types. What it is added to stays far within an i64.
#[tactic(auto, unfolding(steps::specs::Adjust::choose_delta))]
pub fn choose(g: &Graph, lists: &Lists, flag: bool) -> Result<Delta, Fault>
    requires { sized lists.now ≡ size_of g.now }
    ensures said { (at : Progress) → AnswersDelta (choose_delta g.now flag (state_of lists.now at)) result }
    ensures small { IfOk result Small }
{
    let one = delta_one(g, lists, flag)?;
    let two = delta_two(g, lists, one)?;
    let three = delta_three(g, lists, two)?;
    let four = delta_four(g, lists, three)?;
    // Its fields by name: the toolchain builds no proof of a function that hands on a Delta where no `By` is in sight.
    let Delta { amount, by } = delta_last(g, lists, four)?;
    Ok(Delta { amount, by })
}
