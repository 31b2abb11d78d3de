// A group is turned so that a node of it is its base, child by child, by routines that call one another with a falling depth.
ghost use Rattle.std.specs.Prelude.{◌≡◌, ◌*◌, ◌<◌, length, IfOk};
ghost use Rattle.laws.specs.Run.{at as at_of};
ghost use Rattle.matching.specs.Graph.{is_group, is_odd};
ghost use Rattle.steps.specs.Ring.{rotate};
ghost use Rattle.steps.specs.State.{Progress};
ghost use Rattle.steps.specs.Augment.{child_holding as child_holding_of, match_end as match_end_of, reroot as reroot_of, turn_child as turn_child_of, turning_move, turn_group as turn_group_of, augment_group, augment_top as augment_top_of};
ghost use Rattle.numbers.specs.Answers.{Agrees, Answers};
ghost use Rattle.state.specs.Parts.{state_of, sized};
ghost use Rattle.augment.specs.Turns.{below, at_place, round, Places};
ghost use Rattle.state.specs.Keeps.{Turned};

use edges::graph::Graph;
use numbers::faults::{Fault, must, present, read};
use numbers::{End, Group, Node};
use state::lists::Lists;
use state::places::{around, link_end, place_of};

// From node v up to the child of group b that holds it, by the parents: at most 2n moves.
#[tactic(auto, using(crate::proofs::ClimbLaws::climbs), unfolding(steps::specs::Augment::child_holding))]
fn child_holding(g: &Graph, lists: &Lists, b: Group, v: Node) -> Result<Group, Fault>
    ensures { Answers (child_holding_of lists.now.forest.lists.parents (2 * g.now.nodes) b v) result }
{
    let mut t = v.alone();
    for _ in 0..g.numbers() {
        let p = lists.parent(t)?;
        if p == b {
            return Ok(t);
        }
        present(p.number())?;
        t = p;
    }
    let p = lists.parent(t)?;
    must(p == b)?;
    Ok(t)
}

// The edge with end p is matched.
#[tactic(auto, unfolding(steps::specs::Augment::match_end))]
fn match_end(g: &Graph, lists: &mut Lists, p: End) -> Result<(), Fault>
    ensures said { (at : Progress) → Agrees (match_end_of g.now p (state_of lists.old at)) result (state_of lists.new at) }
    ensures size { sized lists.new ≡ sized lists.old }
    ensures others { Turned lists.old lists.new }
{
    let a = g.endpoint(p)?;
    let b = g.endpoint(p.beside())?;
    lists.put_mate(a, p.beside())?;
    lists.put_mate(b, p)
}

// The child at place i of a ring.
fn child_at(kids: &[u16], i: u16) -> Result<Group, Fault>
    ensures said { Answers (at_of kids.now i) result }
    ensures near { IfOk result (λ c. i < length kids.now) }
{
    let c = read(kids, i)?;
    Ok(Group::of(c))
}

// The first child of a ring with place i first.
#[tactic(auto, using(crate::proofs::RingLaws::firsts))]
fn first_from(kids: &[u16], i: u16) -> Result<Group, Fault>
    ensures { Answers (at_of (rotate i kids.now) 0) result }
{
    if (i as usize) < kids.len() {
        return child_at(kids, i);
    }
    child_at(kids, 0)
}

// The child at place i is the group's first, and its base, which is to be v, the group's.
#[tactic(auto, unfolding(steps::specs::Augment::reroot))]
fn reroot(lists: &mut Lists, b: Group, i: u16, v: Node) -> Result<(), Fault>
    ensures said { (at : Progress) → Agrees (reroot_of b i v (state_of lists.old at)) result (state_of lists.new at) }
    ensures size { sized lists.new ≡ sized lists.old }
    ensures others { Turned lists.old lists.new }
{
    // Read before the rings turn; that there is no child is a fault only after.
    let kids = lists.children(b)?;
    let first = first_from(kids, i);
    lists.ring_ends(b)?;
    lists.turn_children(b, i);
    lists.turn_ring_ends(b, i);
    let c = first?;
    let base = lists.base(c)?;
    lists.put_base(b, base)?;
    must(base == v)
}

// The child c, entered at end p, is turned where it is a group.
#[cycle(turning)]
#[tactic(auto, unfolding(steps::specs::Augment::turn_child))]
fn turn_child(g: &Graph, lists: &mut Lists, depth: u16, c: Group, p: End) -> Result<(), Fault>
    ensures said { (at : Progress) → Agrees (turn_child_of is_group g.now (below g.now depth) c p (state_of lists.old at)) result (state_of lists.new at) }
    ensures size { sized lists.new ≡ sized lists.old }
    ensures others { Turned lists.old lists.new }
{
    let v = g.endpoint(p)?;
    if c.number() >= g.nodes() {
        turn_group(g, lists, depth, c, v)?;
    }
    Ok(())
}

// The next two children are turned, and the edge between them is matched; the answer is the second one's place. `forward` is the
// definition's own parameter.
#[cycle(turning)]
#[tactic(auto, unfolding(steps::specs::Augment::turning_move))]
fn turn_two(
    g: &Graph,
    lists: &mut Lists,
    depth: u16,
    b: Group,
    forward: bool,
    place: u16,
) -> Result<u16, Fault>
    requires { place < 65535 }
    ensures said { (at : Progress) → Places (turning_move is_group g.now (below g.now depth) b forward (at_place place (state_of lists.old at))) result (state_of lists.new at) }
    ensures size { sized lists.new ≡ sized lists.old }
    ensures near { IfOk result (λ j. j < 65535) }
    ensures others { Turned lists.old lists.new }
{
    let kids = lists.children(b)?;
    let ends = lists.ring_ends(b)?;
    let len = kids.len() as u16;
    let i = around(forward, len, place);
    let p = link_end(forward, ends, i)?;
    let c = child_at(kids, i)?;
    let j = around(forward, len, i);
    // Read before the first is turned; that there is no second is a fault only after.
    let second = child_at(kids, j);
    turn_child(g, lists, depth, c, p)?;
    let d = second?;
    turn_child(g, lists, depth, d, p.beside())?;
    match_end(g, lists, p)?;
    Ok(j)
}

// From the child at place i to the first, two children at a time: at most 2n times.
#[cycle(turning)]
#[tactic(auto, using(crate::proofs::RingLaws::ring_turns))]
fn turn_ring(g: &Graph, lists: &mut Lists, depth: u16, b: Group, i: u16) -> Result<(), Fault>
    requires { i < 65535 }
    ensures said { (at : Progress) → Agrees (round g.now depth b (is_odd i) (2 * g.now.nodes) i (state_of lists.old at)) result (at_place 0 (state_of lists.new at)) }
    ensures size { sized lists.new ≡ sized lists.old }
    ensures others { Turned lists.old lists.new }
{
    let mut place = i;
    for _ in 0..g.numbers() {
        if place == 0 {
            return Ok(());
        }
        place = turn_two(g, lists, depth, b, i % 2 == 1, place)?;
    }
    must(place == 0)
}

// One level of group b: the child that holds node v is turned, the ring from it to the first child, and the group re-rooted.
#[cycle(turning)]
#[tactic(auto, unfolding(steps::specs::Augment::turn_group))]
fn turn_level(g: &Graph, lists: &mut Lists, depth: u16, b: Group, v: Node) -> Result<(), Fault>
    ensures said { (at : Progress) → Agrees (turn_group_of is_group g.now (below g.now depth) b v (state_of lists.old at)) result (state_of lists.new at) }
    ensures size { sized lists.new ≡ sized lists.old }
    ensures others { Turned lists.old lists.new }
{
    let t = child_holding(g, lists, b, v)?;
    if t.number() >= g.nodes() {
        turn_group(g, lists, depth, t, v)?;
    }
    let kids = lists.children(b)?;
    let i = place_of(kids, t)?;
    turn_ring(g, lists, depth, b, i)?;
    reroot(lists, b, i, v)
}

// Group b is turned so that node v is its base; groups nest at most `depth` deep.
#[cycle(turning)]
#[tactic(auto, using(crate::proofs::RingLaws::levels))]
fn turn_group(g: &Graph, lists: &mut Lists, depth: u16, b: Group, v: Node) -> Result<(), Fault>
    ensures said { (at : Progress) → Agrees (augment_group is_group g.now depth b v (state_of lists.old at)) result (state_of lists.new at) }
    ensures size { sized lists.new ≡ sized lists.old }
    ensures others { Turned lists.old lists.new }
{
    if depth == 0 {
        return Err(Fault);
    }
    turn_level(g, lists, depth - 1, b, v)
}

// Group b, where it is one, is turned so that node v is its base.
#[tactic(auto, unfolding(steps::specs::Augment::augment_top))]
pub(crate) fn augment_top(g: &Graph, lists: &mut Lists, b: Group, v: Node) -> Result<(), Fault>
    ensures said { (at : Progress) → Agrees (augment_top_of is_group g.now b v (state_of lists.old at)) result (state_of lists.new at) }
    ensures size { sized lists.new ≡ sized lists.old }
    ensures others { Turned lists.old lists.new }
{
    if b.number() >= g.nodes() {
        turn_group(g, lists, g.nodes(), b, v)?;
    }
    Ok(())
}
