// The ring of a new group: its base's child first, then the first path backward, then the second path.
ghost use Rattle.std.specs.Prelude.{◌≡◌, ◌*◌, ◌<◌, ◌≤◌, length};
ghost use Rattle.std.specs.Result.{IfOk};
ghost use Rattle.laws.specs.Lists.{repeats as repeats_of};
ghost use Rattle.laws.specs.Run.{for_each};
ghost use Rattle.steps.specs.State.{Progress};
ghost use Rattle.steps.specs.Add.{fit_children as fit_children_of, adopt as adopt_of, ring_up as ring_up_of};
ghost use Rattle.numbers.specs.Answers.{Agrees};
ghost use Rattle.state.specs.Parts.{state_of, sized, size_of};
ghost use Rattle.grouping.specs.Parts.{meeting_of, Meets, ring_of, Rings};
ghost use Rattle.grouping.specs.Rooms.{RoomFits};
ghost use Rattle.state.specs.Keeps.{ButParents, InForest, Ringed};

use crate::path::Path;
use crate::room::Room;
use crate::trace::trace;
use edges::graph::Graph;
use numbers::faults::{Fault, must};
use numbers::{Edge, Group, MISSING, Node};
use state::lists::Lists;

// The outermost groups of the base and of an edge's two nodes.
#[derive(Clone, Copy, Debug, PartialEq, Eq)]
pub struct Meeting {
    pub first: Group,
    pub v: Group,
    pub w: Group,
}

#[tactic(auto, unfolding(crate::specs::Parts::meeting_of))]
pub fn meet(g: &Graph, lists: &Lists, base: Node, e: Edge) -> Result<Meeting, Fault>
    ensures said { (at : Progress) → Meets (meeting_of g.now base e (state_of lists.now at)) result }
    ensures few { IfOk result (λ m. e < 32767) }
{
    let x = g.edge(e)?;
    let first = lists.top(base)?;
    let v = lists.top(x.first)?;
    let w = lists.top(x.second)?;
    Ok(Meeting { first, v, w })
}

// The ring of the two paths from edge e back to their meeting point, with no more children than nodes.
#[tactic(auto, unfolding(crate::specs::Parts::ring_of))]
pub fn ring(g: &Graph, lists: &Lists, room: &mut Room, m: &Meeting, e: Edge) -> Result<(), Fault>
    requires { RoomFits g.now.nodes room.old × (e < 32768) }
    ensures said { (at : Progress) → Rings (ring_of g.now (state_of lists.now at) m.now.first m.now.v m.now.w e) result room.new.ring }
    ensures few { IfOk result (λ k. length room.new.ring.kids ≤ g.now.nodes) }
    ensures fits { RoomFits g.now.nodes room.new }
{
    trace(g, lists, m.first, m.v, &mut room.ring)?;
    trace(g, lists, m.first, m.w, &mut room.other)?;
    let n = g.nodes();
    must(room.ring.len() + room.other.len() < n)?;
    room.ring.close(m.first, e);
    room.ring.join(&room.other);
    Ok(())
}

// The entries after each are looked through for it.
#[tactic(auto, using(crate::proofs::RepeatLaws::repeating))]
fn repeats(list: &[u16]) -> bool
    ensures { result ≡ repeats_of list.now }
{
    let mut left = list;
    while let Some((x, rest)) = left.split_first() {
        if rest.contains(x) {
            return true;
        }
        left = rest;
    }
    false
}

// An odd number of children, three or more, none twice.
#[tactic(auto, unfolding(steps::specs::Add::fit_children))]
pub fn fit_children(n: u16, kids: &[u16]) -> bool
    ensures { result ≡ fit_children_of n kids.now }
{
    let m = kids.len();
    m % 2 == 1 && 3 <= m && m <= n as usize && !repeats(kids)
}

// The children have the new group as parent.
#[tactic(auto, unfolding(steps::specs::Add::adopt))]
pub fn adopt(lists: &mut Lists, new: Group, c: Group) -> Result<(), Fault>
    ensures said { (at : Progress) → Agrees (adopt_of new c (state_of lists.old at)) result (state_of lists.new at) }
    ensures size { sized lists.new ≡ sized lists.old }
    ensures others { InForest lists.old lists.new × ButParents lists.old.forest lists.new.forest }
{
    lists.put_parent(c, new)
}

pub fn adopt_all(lists: &mut Lists, new: Group, kids: &[u16]) -> Result<(), Fault>
    ensures said { (at : Progress) → Agrees (for_each (adopt_of new) kids.now (state_of lists.old at)) result (state_of lists.new at) }
    ensures size { sized lists.new ≡ sized lists.old }
    ensures others { InForest lists.old lists.new × ButParents lists.old.forest lists.new.forest }
{
    for &c in kids {
        adopt(lists, new, Group::of(c))?;
    }
    Ok(())
}

// The new group's ring of children and their ends, its parent and its base.
#[tactic(auto, unfolding(steps::specs::Add::ring_up))]
pub fn ring_up(
    g: &Graph,
    lists: &mut Lists,
    path: &Path,
    new: Group,
    base: Node,
) -> Result<(), Fault>
    requires { (sized lists.old ≡ size_of g.now) × (length path.now.kids ≤ g.now.nodes) }
    ensures said { (at : Progress) → Agrees (ring_up_of g.now new base path.now.kids path.now.ends (state_of lists.old at)) result (state_of lists.new at) }
    ensures size { sized lists.new ≡ sized lists.old }
    ensures group { IfOk result (λ k. g.now.nodes ≤ new) }
    ensures others { Ringed lists.old lists.new }
{
    let n = g.nodes();
    if new.number() < n {
        return Err(Fault);
    }
    let kids = path.kids();
    must(fit_children(n, kids))?;
    lists.put_base(new, base)?;
    lists.put_parent(new, Group::of(MISSING))?;
    adopt_all(lists, new, kids)?;
    lists.put_children(new, kids)?;
    lists.put_ring_ends(new, path.ends())
}
