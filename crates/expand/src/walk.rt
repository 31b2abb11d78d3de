// A label-2 group is expanded within a stage: the walk round the ring of its children.
ghost use Rattle.std.specs.Prelude.{◌≡◌, ◌*◌, ◌≤◌, length};
ghost use Rattle.steps.specs.State.{Progress};
ghost use Rattle.steps.specs.Expand.{relabel_move as relabel_move_of, relabel_ring as relabel_ring_of};
ghost use Rattle.numbers.specs.Answers.{Agrees};
ghost use Rattle.state.specs.Parts.{state_of, sized, size_of};
ghost use Rattle.expand.specs.Parts.{to_base, to_entry};
ghost use Rattle.expand.specs.Told.{Links, LinksOn, Relabels, relabel_at};
ghost use Rattle.state.specs.Keeps.{Relabelled};

use crate::relabel::{onward_child, relabel_base, unlabel};
use edges::graph::Graph;
use numbers::faults::{Fault, must, present, read};
use numbers::{End, Group};
use state::lists::Lists;
use state::places::{around, place_of};
use state::pools::Stack;

// A place in the ring, and the end through which its child is reached.
#[derive(Clone, Copy, Debug, PartialEq, Eq)]
pub(crate) struct Hop {
    pub(crate) place: u16,
    pub(crate) p: End,
}

// The ring of group b's children, and the direction of the walk: a bool, as the definition has it.
#[derive(Clone, Copy, Debug, PartialEq, Eq)]
pub(crate) struct Round {
    pub(crate) b: Group,
    pub(crate) forward: bool,
}

// The ring end at place j, and the place after j. The walk has read its place in the children, and the row of ends may be shorter:
// backward there is an end one place past it too, which `around` doesn't take.
#[tactic(auto, unfolding(steps::specs::Ring::link_end, steps::specs::Ring::around))]
fn hop_from(forward: bool, ends: &[u16], j: u16) -> Result<Hop, Fault>
    requires { length ends.now ≤ 65535 }
    ensures { Links forward ends.now j result }
{
    if forward {
        let p = End::of(read(ends, j)?);
        let place = around(true, ends.len() as u16, j);
        return Ok(Hop { place, p });
    }
    if j == 0 {
        return Err(Fault);
    }
    let p = End::of(read(ends, j - 1)?);
    Ok(Hop {
        place: j - 1,
        p: p.beside(),
    })
}

// The same at the place that a first hop came to. By a match: the hop is lent, since what holds a number is not copied, and `as_ref` with
// `map_err` and `?` would be no plainer.
fn hop_on(forward: bool, ends: &[u16], first: &Result<Hop, Fault>) -> Result<Hop, Fault>
    requires { length ends.now ≤ 65535 }
    ensures { LinksOn forward ends.now first.now result }
{
    match first {
        Ok(k) => hop_from(forward, ends, k.place),
        Err(_) => Err(Fault),
    }
}

// Two places on: the child that hop k leads to gets label 2 and, through its mate, the next child label 1. Both ring edges are allowed.
#[tactic(auto, unfolding(steps::specs::Expand::relabel_move))]
fn relabel_move(g: &Graph, lists: &mut Lists, ring: &Round, k: &Hop) -> Result<Hop, Fault>
    requires { sized lists.old ≡ size_of g.now }
    ensures said { (at : Progress) → Relabels (relabel_move_of g.now ring.now.b ring.now.forward (relabel_at k.now.place k.now.p (state_of lists.old at))) result (state_of lists.new at) }
    ensures size { sized lists.new ≡ sized lists.old }
    ensures kids { lists.new.forest.kids ≡ lists.old.forest.kids }
    ensures others { Relabelled lists.old lists.new }
{
    let ends = lists.ring_ends(ring.b)?;
    // Both ends are read before the labels change; that there is none is a fault only where the walk comes to it.
    let first = hop_from(ring.forward, ends, k.place);
    let second = hop_on(ring.forward, ends, &first);
    unlabel(g, lists, k.p)?;
    let q = first?;
    unlabel(g, lists, q.p)?;
    let v = g.endpoint(k.p.beside())?;
    lists.label_two(g, v, k.p)?;
    lists.put_allowed(q.p.edge(), true)?;
    let next = second?;
    lists.put_allowed(next.p.edge(), true)?;
    Ok(next)
}

// From the child that was entered to the base child, two places at a time: at most 2n times.
#[tactic(auto, using(crate::proofs::WalkLaws::relabels))]
fn relabel_walk(g: &Graph, lists: &mut Lists, ring: &Round, from: Hop) -> Result<Hop, Fault>
    requires { sized lists.old ≡ size_of g.now }
    ensures said { (at : Progress) → Relabels (to_base g.now ring.now.b ring.now.forward from.place from.p (state_of lists.old at)) result (state_of lists.new at) }
    ensures size { sized lists.new ≡ sized lists.old }
    ensures kids { lists.new.forest.kids ≡ lists.old.forest.kids }
    ensures others { Relabelled lists.old lists.new }
{
    let mut k = from;
    for _ in 0..g.numbers() {
        if k.place == 0 {
            return Ok(k);
        }
        k = relabel_move(g, lists, ring, &k)?;
    }
    must(k.place == 0)?;
    Ok(k)
}

// From a place on to the child that was entered: at most 2n moves.
#[tactic(auto, using(crate::proofs::WalkLaws::onwards))]
fn onward(
    g: &Graph,
    lists: &mut Lists,
    nodes: &mut Stack,
    ring: &Round,
    entry: Group,
    from: u16,
) -> Result<(), Fault>
    requires { (sized lists.old ≡ size_of g.now) × (nodes.old.room ≡ 2 * g.now.nodes) }
    ensures said { (at : Progress) → Agrees (to_entry g.now ring.now.b ring.now.forward entry from (state_of lists.old at)) result (state_of lists.new at) }
    ensures size { sized lists.new ≡ sized lists.old }
    ensures kids { lists.new.forest.kids ≡ lists.old.forest.kids }
    ensures room { nodes.new.room ≡ nodes.old.room }
    ensures others { Relabelled lists.old lists.new }
{
    let mut place = from;
    for _ in 0..g.numbers() {
        let kids = lists.children(ring.b)?;
        let c = Group::of(read(kids, place)?);
        if c == entry {
            return Ok(());
        }
        place = around(ring.forward, kids.len() as u16, place);
        onward_child(g, lists, nodes, c)?;
    }
    let c = read(lists.children(ring.b)?, place)?;
    must(Group::of(c) == entry)
}

// The children of group b get their labels: forward round the ring from an odd place, backward from an even one.
#[tactic(auto, unfolding(steps::specs::Expand::relabel_ring))]
pub(crate) fn relabel_ring(
    g: &Graph,
    lists: &mut Lists,
    nodes: &mut Stack,
    b: Group,
) -> Result<(), Fault>
    requires { (sized lists.old ≡ size_of g.now) × (nodes.old.room ≡ 2 * g.now.nodes) }
    ensures said { (at : Progress) → Agrees (relabel_ring_of g.now b (state_of lists.old at)) result (state_of lists.new at) }
    ensures size { sized lists.new ≡ sized lists.old }
    ensures kids { lists.new.forest.kids ≡ lists.old.forest.kids }
    ensures room { nodes.new.room ≡ nodes.old.room }
    ensures others { Relabelled lists.old lists.new }
{
    let e = lists.label_end(b)?;
    present(e.number())?;
    let v = g.endpoint(e.beside())?;
    let entry = lists.top(v)?;
    let kids = lists.children(b)?;
    let i = place_of(kids, entry)?;
    let ring = Round {
        b,
        forward: i % 2 == 1,
    };
    let base = read(kids, 0);
    let start = around(ring.forward, kids.len() as u16, 0);
    let k = relabel_walk(g, lists, &ring, Hop { place: i, p: e })?;
    relabel_base(g, lists, Group::of(base?), k.p)?;
    onward(g, lists, nodes, &ring, entry, start)
}
