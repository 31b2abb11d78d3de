// The graph that is searched: how many nodes, the ends and weights of its edges, and the ends across from each node.
ghost use Rattle.std.specs.Prelude.{◌≡◌, ◌*◌, ◌+◌, ◌≤◌, ◌<◌, pos, nat_abs, ◌+ℤ◌, ◌-ℤ◌, ◌*ℤ◌, length, IfOk};
ghost use Rattle.laws.specs.Run.{at};
ghost use Rattle.matching.specs.Graph.{graph_of, edge_count};
ghost use Rattle.numbers.specs.Answers.{Answers};
ghost use Rattle.numbers.specs.Near.{Near};
ghost use Rattle.steps.specs.Ends.{endpoint as endpoint_of, slack_of, tighter as tighter_of, far_ends as far_ends_of, top_weight as top_weight_of};
ghost use Rattle.edges.specs.Views.{edges_over, GraphFits, AnswersEdgeAt, Within};

use numbers::faults::{Fault, read};
use numbers::{Edge, End, Node};
use std::marker::Model;

// An edge: its nodes and its weight.
#[derive(Clone, Copy, Debug, PartialEq, Eq)]
pub struct EdgeAt {
    pub first: Node,
    pub second: Node,
    pub weight: i64,
}

#[derive(Drop)]
pub struct Graph<'a> {
    n: u16,
    ends: &'a [u16],
    weights: &'a [i64],
    offsets: &'a [u16],
    far: &'a [u16],
}

impl<'a> Model for Graph<'a> {
    ghost use Rattle.matching.specs.Graph.{Graph as GraphOf, graph_of};
    ghost use Rattle.edges.specs.Views.{edges_over, GraphFits};

    ghost Value = { GraphOf };

    ghost view = { λ g. graph_of g.n (edges_over g.ends.now g.weights.now) };

    ghost invariant = { λ g. GraphFits g.n g.ends.now g.weights.now g.offsets.now g.far.now };
}

// Two duals less twice a weight.
fn less_twice(u: i64, v: i64, w: i64) -> i64
    requires { (nat_abs u ≤ 4503599627370496) × (nat_abs v ≤ 4503599627370496) × (nat_abs w ≤ 1000000000) }
    ensures said { result ≡ u +ℤ v -ℤ pos 2 *ℤ w }
    ensures near { nat_abs result ≤ 18014398509481984 }
{
    u + v - 2 * w
}

impl<'a> Graph<'a> {
    pub fn new(
        n: u16,
        ends: &'a [u16],
        weights: &'a [i64],
        offsets: &'a [u16],
        far: &'a [u16],
    ) -> Graph<'a>
        requires { GraphFits n ends.now weights.now offsets.now far.now }
        ensures { result ≡ graph_of n (edges_over ends.now weights.now) }
    {
        Graph {
            n,
            ends,
            weights,
            offsets,
            far,
        }
    }

    pub fn nodes(&self) -> u16
        ensures said { result ≡ self.now.nodes }
        ensures few { result ≤ 512 }
    {
        self.n
    }

    // How many nodes and groups there are.
    pub fn numbers(&self) -> u16
        ensures said { result ≡ 2 * self.now.nodes }
        ensures few { result ≤ 1024 }
    {
        2 * self.n
    }

    // The node at an end.
    pub fn endpoint(&self, p: End) -> Result<Node, Fault>
        ensures { Answers (endpoint_of self.now p) result }
    {
        let v = read(self.ends, p.number())?;
        Ok(Node::of(v))
    }

    // Edge e. Its ends fit 16 bits.
    pub fn edge(&self, e: Edge) -> Result<EdgeAt, Fault>
        ensures said { AnswersEdgeAt (at self.now.edges e) result }
        ensures few { Within e 32767 result }
    {
        let k = e.number() as usize;
        if k >= self.weights.len() {
            return Err(Fault);
        }
        Ok(EdgeAt {
            first: Node::of(self.ends[2 * k]),
            second: Node::of(self.ends[2 * k + 1]),
            weight: self.weights[k],
        })
    }

    // The two duals at edge e less twice its weight.
    pub fn slack(&self, duals: &[i64], e: Edge) -> Result<i64, Fault>
        requires { Near 4503599627370496 duals.now }
        ensures said { Answers (slack_of self.now duals.now e) result }
        ensures near { IfOk result (λ k. nat_abs k ≤ 18014398509481984) }
    {
        let k = e.number() as usize;
        if k >= self.weights.len() {
            return Err(Fault);
        }
        let a = self.ends[2 * k] as usize;
        let b = self.ends[2 * k + 1] as usize;
        if a >= duals.len() {
            return Err(Fault);
        }
        if b >= duals.len() {
            return Err(Fault);
        }
        Ok(less_twice(duals[a], duals[b], self.weights[k]))
    }

    // Whether the slack of edge d is below that of edge e.
    #[tactic(auto, unfolding(steps::specs::Ends::tighter))]
    pub fn tighter(&self, duals: &[i64], d: Edge, e: Edge) -> Result<bool, Fault>
        requires { Near 4503599627370496 duals.now }
        ensures { Answers (tighter_of self.now duals.now d e) result }
    {
        let x = self.slack(duals, d)?;
        let y = self.slack(duals, e)?;
        Ok(x < y)
    }

    // The ends across from node v, in edge order.
    pub fn far_ends(&self, v: Node) -> &[u16]
        requires { v < self.now.nodes }
        ensures said { result.now ≡ far_ends_of self.now v }
        ensures few { length result.now ≤ 65535 }
    {
        let k = v.number() as usize;
        let from = self.offsets[k] as usize;
        let to = self.offsets[k + 1] as usize;
        &self.far[from..to]
    }

    // The largest weight, or 0 where none is above it.
    pub fn top_weight(&self) -> i64
        ensures said { result ≡ top_weight_of self.now.edges }
        ensures near { nat_abs result ≤ 1000000000 }
    {
        let mut top: i64 = 0;
        for &w in self.weights {
            top = top.max(w);
        }
        top
    }
}
