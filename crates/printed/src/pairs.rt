// The pairs of a plan, from its mates: how many there are, what they weigh, and their lines, ascending by lower node.
ghost use Rattle.std.specs.Prelude.{◌≡◌, ◌*◌, ◌≤◌, ◌<◌, nat_abs, length};
ghost use Rattle.printed.specs.Answer.{pair_at, pair_line, pair_lines};
ghost use Rattle.printed.specs.Found.{pair_view, pair_in, graph_in, pairs_in, weights_total};
ghost use Rattle.printed.specs.Written.{Puts};

use crate::pair::{Pair, Plan};
use crate::text::Text;
use certificate::nodes::node_at;
use numbers::{End, MISSING, Node};

impl<'a> Plan<'a> {
    // The pair whose lower node is v.
    #[tactic(auto, using(crate::proofs::PairLaws::nodes))]
    fn pair_at(self, v: Node) -> Option<Pair>
        requires { v < self.n }
        ensures { pair_in result ≡ pair_at (graph_in self.entry) self.entry.mates.now v }
    {
        let p = self.mates[usize::from(v.number())];
        if p == MISSING {
            return None;
        }
        let e = usize::from(End::of(p).edge().number());
        if self.first.len() <= e {
            return None;
        }
        let u = node_at(self.first, self.second, End::of(p));
        if u.number() <= v.number() {
            return None;
        }
        Some(Pair {
            lower: v,
            higher: u,
            weight: self.weight[e],
        })
    }

    // How many pairs there are.
    #[tactic(auto, using(crate::proofs::PairLaws::counts))]
    pub(crate) fn count(self) -> u16
        ensures { result ≡ length (pairs_in self.entry) }
    {
        let mut count = 0;
        for v in 0..self.n {
            if let Some(_) = self.pair_at(Node::of(v)) {
                count += 1;
            }
        }
        count
    }

    // What that pair weighs; 0 where there is none.
    #[tactic(auto, using(crate::proofs::PairLaws::weights))]
    fn weight_at(self, v: Node) -> i64
        requires { v < self.n }
        ensures weight { result ≡ weights_total (pair_at (graph_in self.entry) self.entry.mates.now v) }
        ensures light { nat_abs result ≤ 1000000000 }
    {
        match self.pair_at(v) {
            Some(pair) => pair.weight,
            None => 0,
        }
    }

    // What all pairs weigh together. Not by `sum`: std has no bound for signed sums, where each addition here fits.
    #[tactic(auto, using(crate::proofs::PairLaws::weights))]
    pub(crate) fn weigh(self) -> i64
        ensures sum { result ≡ weights_total (pairs_in self.entry) }
        ensures near { nat_abs result ≤ 64 * 1000000000 }
    {
        let mut sum = 0;
        for v in 0..self.n {
            sum += self.weight_at(Node::of(v));
        }
        sum
    }
}

impl<'a> Text<'a> {
    // A pair's line: lower node, higher node, weight.
    #[tactic(auto, using(crate::proofs::Lines::lines))]
    fn put_pair(&mut self, pair: Pair)
        ensures { Puts (pair_line (pair_view pair)) self.old self.new }
    {
        self.put_number(pair.lower.number());
        self.put(b" ");
        self.put_number(pair.higher.number());
        self.put(b" ");
        self.put_number(pair.weight);
        self.put(b"\n");
    }

    // The lines of all pairs.
    #[tactic(auto, using(crate::proofs::Lines::lines))]
    pub(crate) fn put_pairs(&mut self, plan: Plan)
        ensures { Puts (pair_lines (pairs_in plan.entry)) self.old self.new }
    {
        for v in 0..plan.n {
            if let Some(pair) = plan.pair_at(Node::of(v)) {
                self.put_pair(pair);
            }
        }
    }
}
