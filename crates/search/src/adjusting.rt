// Adjusting the duals with what follows, and the groups that a stage's end expands.
ghost use Rattle.std.specs.Prelude.{◌≡◌, ◌≤◌, nat_abs};
ghost use Rattle.laws.specs.Run.{for_range};
ghost use Rattle.steps.specs.State.{Progress};
ghost use Rattle.steps.specs.Steps.{close_group as close_group_of};
ghost use Rattle.steps.specs.Adjust.{follow as follow_of, adjust_duals as adjust_duals_of};
ghost use Rattle.numbers.specs.Answers.{Agrees};
ghost use Rattle.state.specs.Parts.{state_of, sized, size_of};
ghost use Rattle.stages.specs.Deltas.{typed};
ghost use Rattle.search.specs.Visits.{Follows};
ghost use Rattle.state.specs.Keeps.{Adjusted, Closed};

use crate::scratch::Scratch;
use edges::graph::Graph;
use numbers::Group;
use numbers::faults::Fault;
use stages::delta::{By, Delta, choose};
use stages::follow::{follow_three, follow_two};
use stages::shift::move_duals;
use state::lists::Lists;

// The duals move by an amount, and what its type says follows. The answer is whether the search ends. The two by themselves, and no Delta:
// the toolchain builds no proof where a struct holds an enum that holds an edge, and the enum is matched within it.
#[tactic(auto, unfolding(steps::specs::Adjust::follow))]
fn follow(
    g: &Graph,
    lists: &mut Lists,
    scratch: &mut Scratch,
    amount: i64,
    by: By,
) -> Result<bool, Fault>
    requires ready { (sized lists.old ≡ size_of g.now) × (scratch.old ≡ g.now.nodes) }
    requires small { nat_abs amount ≤ 18014398509481984 }
    ensures said { (at : Progress) → Follows (follow_of g.now (typed by amount) (state_of lists.old at)) result lists.new at }
    ensures size { sized lists.new ≡ sized lists.old }
    ensures room { scratch.new ≡ scratch.old }
    ensures others { Adjusted lists.old lists.new }
{
    move_duals(g, lists, amount)?;
    match by {
        By::One => return Ok(true),
        By::Two(e) => follow_two(g, lists, e)?,
        By::Three(e) => follow_three(g, lists, e)?,
        By::Four(b) => scratch.expand(g, lists, false, b)?,
    }
    Ok(false)
}

// By the least amount.
#[tactic(auto, unfolding(steps::specs::Adjust::adjust_duals))]
pub fn adjust(
    g: &Graph,
    lists: &mut Lists,
    scratch: &mut Scratch,
    flag: bool,
) -> Result<bool, Fault>
    requires { (sized lists.old ≡ size_of g.now) × (scratch.old ≡ g.now.nodes) }
    ensures said { (at : Progress) → Follows (adjust_duals_of g.now flag (state_of lists.old at)) result lists.new at }
    ensures size { sized lists.new ≡ sized lists.old }
    ensures room { scratch.new ≡ scratch.old }
    ensures others { Adjusted lists.old lists.new }
{
    let Delta { amount, by } = choose(g, lists, flag)?;
    follow(g, lists, scratch, amount, by)
}

// An outermost label-1 group with dual 0 is expanded.
#[tactic(auto, unfolding(steps::specs::Steps::close_group))]
fn close_group(g: &Graph, lists: &mut Lists, scratch: &mut Scratch, b: Group) -> Result<(), Fault>
    requires { (sized lists.old ≡ size_of g.now) × (scratch.old ≡ g.now.nodes) }
    ensures said { (at : Progress) → Agrees (close_group_of g.now b (state_of lists.old at)) result (state_of lists.new at) }
    ensures size { sized lists.new ≡ sized lists.old }
    ensures room { scratch.new ≡ scratch.old }
    ensures others { Closed lists.old lists.new }
{
    let outermost = lists.is_outermost(b)?;
    let l = lists.label(b.number())?;
    let d = lists.dual(b.number())?;
    if outermost && l == 1 && d == 0 {
        scratch.expand(g, lists, true, b)?;
    }
    Ok(())
}

#[tactic(auto, using(laws::proofs::Ranges::ranges))]
pub fn close_groups(g: &Graph, lists: &mut Lists, scratch: &mut Scratch) -> Result<(), Fault>
    requires { (sized lists.old ≡ size_of g.now) × (scratch.old ≡ g.now.nodes) }
    ensures said { (at : Progress) → Agrees (for_range (close_group_of g.now) g.now.nodes g.now.nodes (state_of lists.old at)) result (state_of lists.new at) }
    ensures size { sized lists.new ≡ sized lists.old }
    ensures room { scratch.new ≡ scratch.old }
    ensures others { Closed lists.old lists.new }
{
    for b in g.nodes()..g.numbers() {
        close_group(g, lists, scratch, Group::of(b))?;
    }
    Ok(())
}
