// A certificate on trial: the edges that it is for and, where MATE, PARENT and DUAL hold, its lists and the chains of its nodes.
ghost use Rattle.std.specs.Prelude.{◌≡◌, ◌*◌, ◌<◌, ◌≤◌, nat_abs, length};
ghost use Rattle.matching.specs.Certificate.{dual_of};
ghost use Rattle.certificate.specs.Lists.{Near};

use crate::chains::Chains;
use crate::edges::Edges;

#[derive(Clone, Copy)]
pub(crate) struct Trial<'a> {
    pub(crate) edges: Edges<'a>,
    pub(crate) chains: Chains<'a>,
    pub(crate) mates: &'a [u16],
    pub(crate) duals: &'a [i64],
    ghost same_nodes: { chains.nodes ≡ edges.nodes },
    ghost each_mate: { length mates.now ≡ edges.nodes },
    ghost near: { Near edges.nodes duals.now },
}

impl<'a> Trial<'a> {
    // The dual of a node or a group.
    #[tactic(auto, unfolding(matching::specs::Certificate::dual_of))]
    pub(crate) fn dual_of(&self, i: u16) -> i64
        requires { i < 2 * self.now.edges.nodes }
        ensures dual { result ≡ dual_of self.now.duals.now i }
        ensures near { nat_abs result ≤ 4503599627370496 }
    {
        self.duals[i as usize]
    }
}
