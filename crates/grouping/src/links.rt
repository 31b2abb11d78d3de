// The least-slack edge found so far to each label-1 group, in the order in which the groups were met.
ghost use Rattle.std.specs.Prelude.{◌≡◌, [], map, ◌*◌, ◌<◌, ◌≤◌, length};
ghost use Rattle.steps.specs.State.{Progress};
ghost use Rattle.steps.specs.Add.{Link, consider_to as consider_to_of};
ghost use Rattle.numbers.specs.Answers.{Agrees};
ghost use Rattle.state.specs.Parts.{state_of, sized, size_of};

use edges::graph::Graph;
use numbers::faults::Fault;
use numbers::{Edge, Group, MISSING};
use state::lists::Lists;
use std::marker::Model;

// Seat has for each group its place among the edges, or missing.
#[derive(Drop)]
pub struct Links<'a> {
    n: u16,
    edges: &'a mut [u16],
    towards: &'a mut [u16],
    seat: &'a mut [u16],
    len: u16,
}

impl<'a> Model for Links<'a> {
    ghost use Rattle.std.specs.Prelude.{take};
    ghost use Rattle.grouping.specs.Links.{Linked, paired, LinksFit};

    ghost Value = { Linked };

    ghost view = { λ s. record { links = paired (take s.len s.towards.now) (take s.len s.edges.now); nodes = s.n } };

    ghost invariant = { λ s. LinksFit s.n s.edges.now s.towards.now s.seat.now s.len };
}

impl<'a> Links<'a> {
    // No link yet.
    pub fn new(
        n: u16,
        edges: &'a mut [u16],
        towards: &'a mut [u16],
        seat: &'a mut [u16],
    ) -> Links<'a>
        requires { (n ≤ 512) × (length edges.old ≡ n) × (length towards.old ≡ n) × (length seat.old ≡ 2 * n) }
        ensures { (result.links ≡ []) × (result.nodes ≡ n) }
    {
        seat.fill(MISSING);
        Links {
            n,
            edges,
            towards,
            seat,
            len: 0,
        }
    }

    pub fn clear(&mut self)
        ensures { (self.new.links ≡ []) × (self.new.nodes ≡ self.old.nodes) }
    {
        self.seat.fill(MISSING);
        self.len = 0;
    }

    // The edges of the links, in order. Lent by themselves, as a path's kids and ends are: the candidates of a group take them so.
    pub fn edges(&self) -> &[u16]
        ensures said { result.now ≡ map (λ (x : Link). x.edge) self.now.links }
        ensures few { length result.now ≤ self.now.nodes }
    {
        &self.edges[..self.len as usize]
    }

    // Edge e leads to group j, which counts where it has label 1: e is held against the edge kept for j. A group that has none yet goes
    // on the end.
    #[tactic(auto, using(crate::proofs::LinkLaws::labels))]
    pub fn consider_to(&mut self, g: &Graph, lists: &Lists, j: Group, e: Edge) -> Result<(), Fault>
        requires { (self.old.nodes ≡ g.now.nodes) × (sized lists.now ≡ size_of g.now) }
        ensures said { (at : Progress) → Agrees (consider_to_of g.now (state_of lists.now at) j e self.old.links) result self.new.links }
        ensures size { self.new.nodes ≡ self.old.nodes }
    {
        let k = j.number();
        let l = lists.label(k)?;
        let len = self.len;
        if l != 1 {
            return Ok(());
        }
        let at = self.seat[k as usize];
        if at < len {
            let tight = lists.tighter(g, e, Edge::of(self.edges[at as usize]))?;
            if tight {
                self.edges[at as usize] = e.number();
            }
            return Ok(());
        }
        if len >= self.n {
            return Err(Fault);
        }
        self.edges[len as usize] = e.number();
        self.towards[len as usize] = k;
        self.seat[k as usize] = len;
        self.len = len + 1;
        Ok(())
    }
}
