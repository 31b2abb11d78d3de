// Room that the steps work in: its lists hold nothing from one call to the next.
ghost use Rattle.std.specs.Prelude.{◌≡◌, ◌≤◌, ◌*◌, length};
ghost use Rattle.steps.specs.Add.{add_group as add_group_of};
ghost use Rattle.steps.specs.Expand.{expand_top};
ghost use Rattle.steps.specs.Scan.{scan as scan_of};
ghost use Rattle.steps.specs.State.{Progress};
ghost use Rattle.numbers.specs.Answers.{Agrees};
ghost use Rattle.state.specs.Parts.{state_of, sized, size_of};
ghost use Rattle.state.specs.Walks.{AnswersBase};
ghost use Rattle.state.specs.Keeps.{Added, Expanded};

use edges::graph::Graph;
use expand::free::expand;
use grouping::add::add_group;
use grouping::room::Room;
use numbers::faults::Fault;
use numbers::{Edge, Group, Node};
use state::lists::Lists;
use state::pools::Stack;
use std::marker::Model;

// For so many nodes.
#[derive(Drop)]
pub struct Scratch<'a> {
    n: u16,
    marks: &'a mut [u16],
    nodes: Stack<'a>,
    room: Room<'a>,
}

impl<'a> Model for Scratch<'a> {
    ghost use Rattle.std.specs.Prelude.{ℕ};
    ghost use Rattle.search.specs.Searched.{ScratchFits};

    ghost Value = { ℕ };

    ghost view = { λ s. s.n };

    ghost invariant = { λ s. ScratchFits s.n s.marks.now s.nodes.room s.room };
}

impl<'a> Scratch<'a> {
    // Cut from one list, which may hold anything.
    pub fn new(n: u16, list: &'a mut [u16]) -> Scratch<'a>
        requires { (n ≤ 512) × (length list.old ≡ 18 * n) }
        ensures { result ≡ n }
    {
        let k = 2 * n as usize;
        let (marks, rest) = list.split_at_mut(k);
        let (nodes, rest) = rest.split_at_mut(k);
        Scratch {
            n,
            marks,
            nodes: Stack::new(nodes, 0),
            room: Room::new(n, rest),
        }
    }

    // The base where the paths from v and from w meet, if they do.
    pub(crate) fn scan(
        &mut self,
        g: &Graph,
        lists: &Lists,
        v: Node,
        w: Node,
    ) -> Result<Option<Node>, Fault>
        requires { self.old ≡ lists.now.labels.size.nodes }
        ensures said { (at : Progress) → AnswersBase (scan_of g.now v w (state_of lists.now at)) result }
        ensures kept { self.new ≡ self.old }
    {
        let base = lists.scan(g, self.marks, v, w)?;
        Ok(base)
    }

    // A new group of the paths from edge e to the base.
    pub(crate) fn add_group(
        &mut self,
        g: &Graph,
        lists: &mut Lists,
        base: Node,
        e: Edge,
    ) -> Result<(), Fault>
        requires { (sized lists.old ≡ size_of g.now) × (self.old ≡ g.now.nodes) }
        ensures said { (at : Progress) → Agrees (add_group_of g.now base e (state_of lists.old at)) result (state_of lists.new at) }
        ensures size { sized lists.new ≡ sized lists.old }
        ensures kept { self.new ≡ self.old }
        ensures others { Added lists.old lists.new }
    {
        add_group(g, lists, &mut self.room, base, e)
    }

    // Group b is taken apart, at the end of a stage where `last`.
    pub(crate) fn expand(
        &mut self,
        g: &Graph,
        lists: &mut Lists,
        last: bool,
        b: Group,
    ) -> Result<(), Fault>
        requires { (sized lists.old ≡ size_of g.now) × (self.old ≡ g.now.nodes) }
        ensures said { (at : Progress) → Agrees (expand_top g.now last b (state_of lists.old at)) result (state_of lists.new at) }
        ensures size { sized lists.new ≡ sized lists.old }
        ensures kept { self.new ≡ self.old }
        ensures others { Expanded last lists.old lists.new }
    {
        expand(g, lists, &mut self.nodes, last, b)
    }
}
