// The duals move by the amount of an adjustment.
ghost use Rattle.std.specs.Prelude.{◌≡◌, ◌≤◌, nat_abs, leb};
ghost use Rattle.laws.specs.Run.{for_range};
ghost use Rattle.matching.specs.Certificate.{max_dual};
ghost use Rattle.steps.specs.State.{Progress};
ghost use Rattle.steps.specs.Adjust.{put_fit_dual as put_fit_dual_of, move_node as move_node_of, move_group as move_group_of, move_duals as move_duals_of};
ghost use Rattle.numbers.specs.Answers.{Agrees};
ghost use Rattle.state.specs.Parts.{state_of, sized, size_of};
ghost use Rattle.state.specs.Keeps.{ButDuals, InPairing};

use edges::graph::Graph;
use numbers::faults::{Fault, must};
use numbers::{Group, Node};
use state::lists::Lists;

// The certificate's test has the same limit for itself: the search does not know it.
const MAX_DUAL: i64 = 4503599627370496;

// A dual may not leave -2^52 to 2^52.
fn fits_dual(d: i64) -> bool
    ensures { result ≡ leb (nat_abs d) max_dual }
{
    (-MAX_DUAL..=MAX_DUAL).contains(&d)
}

// Dual i becomes d where it fits.
#[tactic(auto, unfolding(steps::specs::Adjust::put_fit_dual))]
fn put_fit_dual(lists: &mut Lists, i: u16, d: i64) -> Result<(), Fault>
    ensures said { (at : Progress) → Agrees (put_fit_dual_of i d (state_of lists.old at)) result (state_of lists.new at) }
    ensures size { sized lists.new ≡ sized lists.old }
    ensures kids { lists.new.forest.kids ≡ lists.old.forest.kids }
    ensures others { InPairing lists.old lists.new × ButDuals lists.old.pairing lists.new.pairing }
{
    must(fits_dual(d))?;
    lists.put_dual(i, d)
}

// A node of a label-1 group loses delta, of a label-2 group gains it.
#[tactic(auto, unfolding(steps::specs::Adjust::move_node))]
fn move_node(lists: &mut Lists, delta: i64, v: Node) -> Result<(), Fault>
    requires { nat_abs delta ≤ 18014398509481984 }
    ensures said { (at : Progress) → Agrees (move_node_of delta v (state_of lists.old at)) result (state_of lists.new at) }
    ensures size { sized lists.new ≡ sized lists.old }
    ensures kids { lists.new.forest.kids ≡ lists.old.forest.kids }
    ensures others { InPairing lists.old lists.new × ButDuals lists.old.pairing lists.new.pairing }
{
    let t = lists.top(v)?;
    let l = lists.label(t.number())?;
    let d = lists.dual(v.number())?;
    if l == 1 {
        put_fit_dual(lists, v.number(), d - delta)?;
    } else if l == 2 {
        put_fit_dual(lists, v.number(), d + delta)?;
    }
    Ok(())
}

// An outermost label-1 group gains delta, a label-2 group loses it. Not the same as a node: the definition has other amounts and tests.
#[tactic(auto, unfolding(steps::specs::Adjust::move_group))]
fn move_group(lists: &mut Lists, delta: i64, b: Group) -> Result<(), Fault>
    requires { nat_abs delta ≤ 18014398509481984 }
    ensures said { (at : Progress) → Agrees (move_group_of delta b (state_of lists.old at)) result (state_of lists.new at) }
    ensures size { sized lists.new ≡ sized lists.old }
    ensures kids { lists.new.forest.kids ≡ lists.old.forest.kids }
    ensures others { InPairing lists.old lists.new × ButDuals lists.old.pairing lists.new.pairing }
{
    if !lists.is_outermost(b)? {
        return Ok(());
    }
    let t = lists.label(b.number())?;
    let d = lists.dual(b.number())?;
    if t == 1 {
        put_fit_dual(lists, b.number(), d + delta)?;
    } else if t == 2 {
        put_fit_dual(lists, b.number(), d - delta)?;
    }
    Ok(())
}

#[tactic(auto, using(laws::proofs::Ranges::ranges))]
fn move_nodes(g: &Graph, lists: &mut Lists, delta: i64) -> Result<(), Fault>
    requires { nat_abs delta ≤ 18014398509481984 }
    ensures said { (at : Progress) → Agrees (for_range (move_node_of delta) 0 g.now.nodes (state_of lists.old at)) result (state_of lists.new at) }
    ensures size { sized lists.new ≡ sized lists.old }
    ensures kids { lists.new.forest.kids ≡ lists.old.forest.kids }
    ensures others { InPairing lists.old lists.new × ButDuals lists.old.pairing lists.new.pairing }
{
    for v in 0..g.nodes() {
        move_node(lists, delta, Node::of(v))?;
    }
    Ok(())
}

#[tactic(auto, using(laws::proofs::Ranges::ranges))]
fn move_groups(g: &Graph, lists: &mut Lists, delta: i64) -> Result<(), Fault>
    requires { nat_abs delta ≤ 18014398509481984 }
    ensures said { (at : Progress) → Agrees (for_range (move_group_of delta) g.now.nodes g.now.nodes (state_of lists.old at)) result (state_of lists.new at) }
    ensures size { sized lists.new ≡ sized lists.old }
    ensures kids { lists.new.forest.kids ≡ lists.old.forest.kids }
    ensures others { InPairing lists.old lists.new × ButDuals lists.old.pairing lists.new.pairing }
{
    for b in g.nodes()..g.numbers() {
        move_group(lists, delta, Group::of(b))?;
    }
    Ok(())
}

// All duals move.
#[tactic(auto, unfolding(steps::specs::Adjust::move_duals))]
pub fn move_duals(g: &Graph, lists: &mut Lists, delta: i64) -> Result<(), Fault>
    requires { nat_abs delta ≤ 18014398509481984 }
    ensures said { (at : Progress) → Agrees (move_duals_of g.now delta (state_of lists.old at)) result (state_of lists.new at) }
    ensures size { sized lists.new ≡ sized lists.old }
    ensures kids { lists.new.forest.kids ≡ lists.old.forest.kids }
    ensures others { InPairing lists.old lists.new × ButDuals lists.old.pairing lists.new.pairing }
{
    move_nodes(g, lists, delta)?;
    move_groups(g, lists, delta)
}
