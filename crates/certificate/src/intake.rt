// What is refused before anything is read of the search or the certificate: answers 1 to 6, in document 01's order.
ghost use Rattle.std.specs.Prelude.{◌≡◌, ◌≤◌, length, IsTrue};
ghost use Rattle.matching.specs.Graph.{edge, edges_from};
ghost use Rattle.steps.specs.Refusals.{edge_intake, edges_intake, too_short};
ghost use Rattle.certificate.specs.Lists.{room, same_length, intake_lists};
ghost use Rattle.certificate.specs.View.{intake_of};

use crate::answers::{Cause, must};
use numbers::{Edge, Node};

const MAX_NODES: usize = 64;

const MAX_EDGES: usize = 2048;

const MAX_WEIGHT: u64 = 1000000000;

// At one edge: END, LOOP, WEIGHT.
#[tactic(auto, unfolding(steps::specs::Refusals::edge_intake))]
fn edge_intake(n: usize, e: Edge, a: Node, b: Node, w: i64) -> Result<(), Cause>
    ensures { intake_of result ≡ edge_intake n e (edge a b w) }
{
    let i = a.number() as usize;
    let j = b.number() as usize;
    must(i < n && j < n, Cause::End(e))?;
    must(i != j, Cause::Loop(e))?;
    must(w.unsigned_abs() <= MAX_WEIGHT, Cause::Weight(e))
}

// The first bad edge.
#[tactic(auto, using(crate::proofs::IntakeLaws::each_edge))]
fn edges_intake(n: usize, first: &[u16], second: &[u16], weight: &[i64]) -> Result<(), Cause>
    requires few { length first.now ≤ 2048 }
    requires seconds { length second.now ≡ length first.now }
    requires weights { length weight.now ≡ length first.now }
    ensures { intake_of result ≡ edges_intake n 0 (edges_from first.now second.now weight.now) }
{
    // Three lists at one number, which the refusal carries.
    for e in 0..first.len() {
        edge_intake(
            n,
            Edge::of(e as u16),
            Node::of(first[e]),
            Node::of(second[e]),
            weight[e],
        )?;
    }
    Ok(())
}

// The three lists are one list of edges.
#[tactic(auto, unfolding(crate::specs::Lists::same_length))]
fn same_length(first: &[u16], second: &[u16], weight: &[i64]) -> bool
    ensures tested { result ≡ same_length first.now second.now weight.now }
    ensures seconds { IsTrue result → length second.now ≡ length first.now }
    ensures weights { IsTrue result → length weight.now ≡ length first.now }
{
    second.len() == first.len() && weight.len() == first.len()
}

// A lent list is too short.
#[tactic(auto, unfolding(steps::specs::Refusals::too_short))]
fn too_short(n: usize, mates: usize, duals: usize, parents: usize) -> bool
    requires { n ≤ 64 }
    ensures { result ≡ too_short n (room mates duals parents) }
{
    mates < n || duals < 2 * n || parents < 2 * n
}

// Both calls refuse by this: the lengths are those of the three lent lists.
#[tactic(auto, using(crate::proofs::IntakeLaws::refuses))]
pub fn refusal(
    n: usize,
    first: &[u16],
    second: &[u16],
    weight: &[i64],
    mates: usize,
    duals: usize,
    parents: usize,
) -> Result<(), Cause>
    ensures { intake_of result ≡ intake_lists n first.now second.now weight.now (room mates duals parents) }
{
    must(n <= MAX_NODES, Cause::Nodes)?;
    must(first.len() <= MAX_EDGES, Cause::Edges)?;
    must(same_length(first, second, weight), Cause::Buffer)?;
    must(!too_short(n, mates, duals, parents), Cause::Buffer)?;
    edges_intake(n, first, second, weight)
}
