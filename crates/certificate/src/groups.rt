// FULL: the sizes of groups and the pairs within them. The matched edges are listed once.
ghost use Rattle.std.specs.Prelude.{◌≡◌, ◌*◌, ◌<◌, ◌≤◌, length};
ghost use Rattle.laws.specs.Lists.{all};
ghost use Rattle.matching.specs.Graph.{groups_of};
ghost use Rattle.matching.specs.Certificate.{inside, within, pairs as pairs_of};
ghost use Rattle.matching.specs.Tests.{full_test};
ghost use Rattle.certificate.specs.Groups.{Listed};
ghost use Rattle.certificate.specs.Trial.{graph, certificate};

use crate::edges::Edges;
use crate::trial::Trial;
use numbers::{Edge, Group};

// A trial and its matched edges.
#[derive(Clone, Copy)]
struct Full<'a> {
    trial: &'a Trial<'a>,
    pairs: &'a [u16],
    ghost listed: { pairs.now ≡ pairs_of (graph trial.now.edges) trial.now.mates.now },
}

// The matched edges, in order; how many there are is the answer. An entry that is no matched edge is written over by the next.
fn list_pairs(edges: &Edges, mates: &[u16], list: &mut [u16]) -> u16
    requires mates { edges.now.nodes ≤ length mates.now }
    requires room { length edges.now.first.now ≤ length list.old }
    ensures { Listed (graph edges.now) mates.now list.new result }
{
    let mut k: u16 = 0;
    for e in 0..edges.count() {
        list[k as usize] = e;
        k += u16::from(edges.is_matched(mates, Edge::of(e)));
    }
    k
}

impl<'a> Full<'a> {
    // Both ends of edge e are in group b.
    #[tactic(auto, unfolding(matching::specs::Certificate::inside, matching::specs::Certificate::contains))]
    fn inside(&self, b: Group, e: Edge) -> bool
        requires { e < length self.now.trial.now.edges.first.now }
        ensures { result ≡ inside (graph self.now.trial.now.edges) self.now.trial.now.chains.parents.now b e }
    {
        let t = self.trial;
        t.chains.contains(b, t.edges.first_of(e)) && t.chains.contains(b, t.edges.second_of(e))
    }

    // How many of the pairs lie within group b.
    #[tactic(auto, using(crate::proofs::GroupLaws::listing), unfolding(matching::specs::Certificate::within))]
    fn pairs_within(&self, b: Group) -> u16
        ensures { result ≡ within (graph self.now.trial.now.edges) self.now.trial.now.chains.parents.now b self.now.pairs.now }
    {
        let mut found: u16 = 0;
        for &e in self.pairs {
            found += u16::from(self.inside(b, Edge::of(e)));
        }
        found
    }

    // Where its dual is above 0, group b holds an odd number of nodes, all but one of them in pairs within it.
    #[tactic(auto, using(crate::proofs::GroupLaws::fullness))]
    fn full_test(&self, b: Group) -> bool
        requires { b < 2 * self.now.trial.now.edges.nodes }
        ensures { result ≡ full_test (graph self.now.trial.now.edges) (certificate self.now.trial.now) b }
    {
        if self.trial.dual_of(b.number()) <= 0 {
            return true;
        }
        let size = self.trial.chains.size_of(b);
        size % 2 == 1 && self.pairs_within(b) == size / 2
    }

    fn groups_pass(&self) -> bool
        ensures { result ≡ all (full_test (graph self.now.trial.now.edges) (certificate self.now.trial.now)) (groups_of (graph self.now.trial.now.edges)) }
    {
        let n = self.trial.edges.nodes;
        (n..2 * n).all(|b| self.full_test(Group::of(b)))
    }
}

impl<'a> Trial<'a> {
    // FULL, of every group with a dual above 0.
    #[tactic(auto, using(crate::proofs::GroupLaws::listing))]
    pub(crate) fn full_pass(&self) -> bool
        ensures { result ≡ all (full_test (graph self.now.edges) (certificate self.now)) (groups_of (graph self.now.edges)) }
    {
        let mut list = [0u16; 2048];
        let k = list_pairs(&self.edges, self.mates, &mut list) as usize;
        let pairs = &list[..k];
        let full = Full { trial: self, pairs };
        full.groups_pass()
    }
}
