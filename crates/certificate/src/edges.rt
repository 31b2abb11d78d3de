// The edges of a call that are not refused: three lists, entry by entry, whose nodes are below `nodes`; and MATE, which reads nothing else.
ghost use Rattle.std.specs.Prelude.{◌≡◌, ◌*◌, ◌<◌, ◌≤◌, nat_abs, length};
ghost use Rattle.laws.specs.Lists.{all, range};
ghost use Rattle.matching.specs.Certificate.{mate_of};
ghost use Rattle.certificate.specs.Lists.{Known, Weighed};

use numbers::{Edge, End, MISSING, Node};

#[derive(Clone, Copy)]
pub(crate) struct Edges<'a> {
    pub(crate) nodes: u16,
    pub(crate) first: &'a [u16],
    pub(crate) second: &'a [u16],
    pub(crate) weight: &'a [i64],
    ghost known: { Known nodes first.now second.now },
    ghost weighed: { Weighed first.now weight.now },
}

impl<'a> Edges<'a> {
    ghost use Rattle.matching.specs.Graph.{edge_count, first_of, second_of, weight_of, node_at};
    ghost use Rattle.matching.specs.Certificate.{matched};
    ghost use Rattle.matching.specs.Tests.{mate_test};
    ghost use Rattle.certificate.specs.Trial.{graph};

    #[tactic(auto, using(crate::proofs::EdgeReads::reads))]
    pub(crate) fn count(&self) -> u16
        ensures each { result ≡ length self.now.first.now }
        ensures count { result ≡ edge_count (graph self.now) }
        ensures few { result ≤ 2048 }
    {
        self.first.len() as u16
    }

    #[tactic(auto, using(crate::proofs::EdgeReads::reads))]
    pub(crate) fn first_of(&self, e: Edge) -> Node
        requires { e < length self.now.first.now }
        ensures node { result ≡ first_of (graph self.now) e }
        ensures below { result < self.now.nodes }
    {
        Node::of(self.first[e.number() as usize])
    }

    #[tactic(auto, using(crate::proofs::EdgeReads::reads))]
    pub(crate) fn second_of(&self, e: Edge) -> Node
        requires { e < length self.now.first.now }
        ensures node { result ≡ second_of (graph self.now) e }
        ensures below { result < self.now.nodes }
    {
        Node::of(self.second[e.number() as usize])
    }

    #[tactic(auto, using(crate::proofs::EdgeReads::reads))]
    pub(crate) fn weight_of(&self, e: Edge) -> i64
        requires { e < length self.now.first.now }
        ensures weight { result ≡ weight_of (graph self.now) e }
        ensures near { nat_abs result ≤ 1000000000 }
    {
        self.weight[e.number() as usize]
    }

    // The node that end p is at. The public one (nodes.rt) takes two lists and says nothing of a graph.
    #[tactic(auto, unfolding(matching::specs::Graph::node_at))]
    fn node_at(&self, p: End) -> Node
        requires { p < 2 * length self.now.first.now }
        ensures node { result ≡ node_at (graph self.now) p }
        ensures below { result < self.now.nodes }
    {
        if p.number() % 2 == 1 {
            self.second_of(p.edge())
        } else {
            self.first_of(p.edge())
        }
    }

    // Each end of e is the mate of the node at the other.
    #[tactic(auto, unfolding(matching::specs::Certificate::matched))]
    pub(crate) fn is_matched(&self, mates: &[u16], e: Edge) -> bool
        requires mates { self.now.nodes ≤ length mates.now }
        requires edge { e < length self.now.first.now }
        ensures { result ≡ matched (graph self.now) mates.now e }
    {
        mate_of(mates, self.first_of(e)) == e.second_end().number()
            && mate_of(mates, self.second_of(e)) == e.first_end().number()
    }

    // The mate of v is missing, or an end whose other end is v and whose node has that other end as mate.
    #[tactic(auto, unfolding(matching::specs::Tests::mate_test))]
    fn mate_test(&self, mates: &[u16], v: Node) -> bool
        requires mates { self.now.nodes ≤ length mates.now }
        requires node { v < length mates.now }
        ensures { result ≡ mate_test (graph self.now) mates.now v }
    {
        let p = mate_of(mates, v);
        if p == MISSING {
            return true;
        }
        if p >= 2 * self.count() {
            return false;
        }
        let q = End::of(p).beside();
        self.node_at(q) == v && mate_of(mates, self.node_at(End::of(p))) == q.number()
    }

    // The search has such a test over its own lists; the check call rests on nothing of the search.
    pub(crate) fn mates_pass(&self, mates: &[u16]) -> bool
        requires { length mates.now ≡ self.now.nodes }
        ensures { result ≡ all (mate_test (graph self.now) mates.now) (range 0 self.now.nodes) }
    {
        (0..self.nodes).all(|v| self.mate_test(mates, Node::of(v)))
    }
}

#[tactic(auto, using(crate::proofs::EdgeReads::mate_read))]
fn mate_of(mates: &[u16], v: Node) -> u16
    requires { v < length mates.now }
    ensures { result ≡ mate_of mates.now v }
{
    mates[v.number() as usize]
}
