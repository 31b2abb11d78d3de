// EDGE and TIGHT: one pass over the edges, so each edge's two chains are compared once.
ghost use Rattle.std.specs.Prelude.{◌≡◌, [], ◌∷◌, ◌<◌, length};
ghost use Rattle.matching.specs.Certificate.{full_slack, EDGE, TIGHT};
ghost use Rattle.matching.specs.Tests.{edge_test, tight_test, verdict_of};
ghost use Rattle.certificate.specs.Trial.{graph, certificate};
ghost use Rattle.certificate.specs.View.{answer_of};

use crate::answers::{Condition, must};
use crate::trial::Trial;
use numbers::Edge;

impl<'a> Trial<'a> {
    // The slack, plus twice the duals of the groups that contain both ends.
    #[tactic(auto, using(crate::proofs::SlackLaws::slack_sum))]
    fn full_slack(&self, e: Edge) -> i64
        requires { e < length self.now.edges.first.now }
        ensures { result ≡ full_slack (graph self.now.edges) (certificate self.now) e }
    {
        let a = self.edges.first_of(e);
        let b = self.edges.second_of(e);
        let w = self.edges.weight_of(e);
        let common = self.chains.common_duals(self.duals, a, b);
        self.dual_of(a.number()) + self.dual_of(b.number()) - 2 * w + 2 * common
    }

    // EDGE and TIGHT at one edge.
    #[tactic(auto, unfolding(matching::specs::Tests::edge_test, matching::specs::Tests::tight_test))]
    fn edge_tests(&self, e: Edge) -> (bool, bool)
        requires { e < length self.now.edges.first.now }
        ensures edge { result.0 ≡ edge_test (graph self.now.edges) (certificate self.now) e }
        ensures tight { result.1 ≡ tight_test (graph self.now.edges) (certificate self.now) e }
    {
        let slack = self.full_slack(e);
        let matched = self.edges.is_matched(self.mates, e);
        (slack >= 0, !matched | (slack == 0))
    }

    // EDGE fails at the first slack below 0. TIGHT comes after it, so a loose edge is only kept in mind.
    #[tactic(auto, using(crate::proofs::SlackLaws::slack_pass))]
    pub(crate) fn slacks_pass(&self, flag: bool) -> Result<(), Condition>
        ensures { answer_of result ≡ verdict_of (graph self.now.edges) flag (certificate self.now) (EDGE ∷ TIGHT ∷ []) }
    {
        let mut all_tight = true;
        for e in 0..self.edges.count() {
            let (edge, tight) = self.edge_tests(Edge::of(e));
            must(edge, Condition::Edge)?;
            all_tight &= tight;
        }
        must(all_tight, Condition::Tight)
    }
}
