// A group added: its ring, a free number for it, its label and dual, its nodes, and its best edges.
ghost use Rattle.std.specs.Prelude.{◌≡◌};
ghost use Rattle.steps.specs.State.{Progress};
ghost use Rattle.steps.specs.Add.{add_group as add_group_of};
ghost use Rattle.numbers.specs.Answers.{Agrees};
ghost use Rattle.state.specs.Parts.{state_of, sized, size_of};
ghost use Rattle.grouping.specs.Parts.{added_of};
ghost use Rattle.grouping.specs.Rooms.{RoomFits};
ghost use Rattle.state.specs.Keeps.{Added};

use crate::best::best_edges;
use crate::ring::{meet, ring, ring_up};
use crate::room::Room;
use crate::settle::{settle, take_nodes};
use edges::graph::Graph;
use numbers::faults::Fault;
use numbers::{Edge, Node};
use state::lists::Lists;

// The same as add_group, said by its parts.
#[tactic(auto, unfolding(crate::specs::Parts::added_of))]
fn add_parts(
    g: &Graph,
    lists: &mut Lists,
    room: &mut Room,
    base: Node,
    e: Edge,
) -> Result<(), Fault>
    requires { (sized lists.old ≡ size_of g.now) × RoomFits g.now.nodes room.old }
    ensures said { (at : Progress) → Agrees (added_of g.now base e (state_of lists.old at)) result (state_of lists.new at) }
    ensures size { sized lists.new ≡ sized lists.old }
    ensures fits { RoomFits g.now.nodes room.new }
    ensures others { Added lists.old lists.new }
{
    let m = meet(g, lists, base, e)?;
    ring(g, lists, room, &m, e)?;
    let new = lists.take_free()?;
    ring_up(g, lists, &room.ring, new, base)?;
    settle(lists, new, m.first)?;
    take_nodes(g, lists, new, &mut room.nodes)?;
    best_edges(g, lists, room, new)
}

// A new group of the two paths from the nodes of edge e back to their meeting point, the group of node base. The last of the free
// numbers is its number.
#[tactic(auto, using(crate::proofs::AddLaws::adding))]
pub fn add_group(
    g: &Graph,
    lists: &mut Lists,
    room: &mut Room,
    base: Node,
    e: Edge,
) -> Result<(), Fault>
    requires { (sized lists.old ≡ size_of g.now) × RoomFits g.now.nodes room.old }
    ensures said { (at : Progress) → Agrees (add_group_of g.now base e (state_of lists.old at)) result (state_of lists.new at) }
    ensures size { sized lists.new ≡ sized lists.old }
    ensures fits { RoomFits g.now.nodes room.new }
    ensures others { Added lists.old lists.new }
{
    add_parts(g, lists, room, base, e)
}
