// Before the first step: the lists are cut from lent lists, which may hold anything.
ghost use Rattle.std.specs.Prelude.{◌≡◌, ◌++◌, ◌+◌, ◌*◌, ◌-◌, ◌≤◌, pos, nat_abs, length, replicate};
ghost use Rattle.laws.specs.Lists.{range};
ghost use Rattle.matching.specs.Graph.{missing, edge_count};
ghost use Rattle.steps.specs.State.{start};
ghost use Rattle.state.specs.Fresh.{fresh_forest, fresh_labelling, fresh_pairing, at_start};
ghost use Rattle.state.specs.Parts.{state_of, sized, size_of};

use crate::forest::Forest;
use crate::labelling::Labelling;
use crate::lists::Lists;
use crate::pairing::Pairing;
use crate::pools::{Pool, Stack};
use edges::graph::Graph;
use numbers::MISSING;

// Each entry is one more than the one before, the first is from.
pub fn count_up(list: &mut [u16], from: u16)
    requires { from + length list.old ≤ 65535 }
    ensures { list.new ≡ range from (length list.old) }
{
    for (i, x) in list.iter_mut().enumerate() {
        *x = from + i as u16;
    }
}

// The first k nodes are their own bases, and no group is in use.
fn first_bases(list: &mut [u16], k: usize)
    requires { (k ≤ 512) × (k ≤ length list.old) }
    ensures { list.new ≡ range 0 k ++ replicate (length list.old - k) missing }
{
    count_up(&mut list[..k], 0);
    list[k..].fill(MISSING);
}

// The first k duals are top, the others 0.
fn first_duals(list: &mut [i64], k: usize, top: i64)
    requires { k ≤ length list.old }
    ensures { list.new ≡ replicate k top ++ replicate (length list.old - k) (pos 0) }
{
    list[..k].fill(top);
    list[k..].fill(0);
}

impl<'a> Forest<'a> {
    // Each node stands alone, and all group numbers are free.
    #[tactic(auto, using(crate::proofs::Empty::fresh))]
    pub fn fresh(nodes: u16, numbers: &'a mut [u16]) -> Forest<'a>
        requires few { nodes ≤ 512 }
        requires room { 8 * nodes + 2 * (nodes * nodes) ≤ length numbers.old }
        ensures lists { result.lists ≡ fresh_forest nodes }
        ensures nodes { result.nodes ≡ nodes }
    {
        let n = nodes as usize;
        let (tops, rest) = numbers.split_at_mut(n);
        let (parents, rest) = rest.split_at_mut(2 * n);
        let (bases, rest) = rest.split_at_mut(2 * n);
        let (counts, rest) = rest.split_at_mut(n);
        let (kids, rest) = rest.split_at_mut(n * n);
        let (end_counts, rest) = rest.split_at_mut(n);
        let (ends, rest) = rest.split_at_mut(n * n);
        let (free, _) = rest.split_at_mut(n);
        count_up(tops, 0);
        parents.fill(MISSING);
        first_bases(bases, n);
        counts.fill(0);
        end_counts.fill(0);
        count_up(free, nodes);
        Forest {
            n: nodes,
            tops,
            parents,
            bases,
            children: Pool::new(nodes, counts, kids),
            ring_ends: Pool::new(nodes, end_counts, ends),
            free: Stack::new(free, nodes),
        }
    }
}

impl<'a> Labelling<'a> {
    // Nothing is labelled or queued.
    #[tactic(auto, using(crate::proofs::Empty::fresh))]
    pub fn fresh(nodes: u16, numbers: &'a mut [u16], allowed: &'a mut [bool]) -> Labelling<'a>
        requires few { (nodes ≤ 512) × (length allowed.old ≤ 65535) }
        requires room { 9 * nodes + nodes * nodes ≤ length numbers.old }
        ensures lists { result.lists ≡ fresh_labelling nodes (length allowed.old) }
        ensures size { result.size ≡ record { nodes = nodes; edges = length allowed.old } }
    {
        let n = nodes as usize;
        let m = allowed.len() as u16;
        let (labels, rest) = numbers.split_at_mut(2 * n);
        let (label_ends, rest) = rest.split_at_mut(2 * n);
        let (best, rest) = rest.split_at_mut(2 * n);
        let (counts, rest) = rest.split_at_mut(n);
        let (lists, rest) = rest.split_at_mut(n * n);
        let (queued, _) = rest.split_at_mut(2 * n);
        labels.fill(0);
        label_ends.fill(MISSING);
        best.fill(MISSING);
        counts.fill(0);
        allowed.fill(false);
        Labelling {
            n: nodes,
            m,
            labels,
            label_ends,
            best,
            best_lists: Pool::new(nodes, counts, lists),
            allowed,
            queue: Stack::new(queued, 0),
        }
    }
}

impl<'a> Pairing<'a> {
    // No node has a mate, and each has the dual top.
    pub fn fresh(nodes: u16, top: i64, mates: &'a mut [u16], duals: &'a mut [i64]) -> Pairing<'a>
        requires near { nat_abs top ≤ 4503599627370496 }
        requires room { (length mates.old ≡ nodes) × (length duals.old ≡ 2 * nodes) }
        ensures lists { result.lists ≡ fresh_pairing nodes top }
        ensures nodes { result.nodes ≡ nodes }
    {
        mates.fill(MISSING);
        first_duals(duals, nodes as usize, top);
        Pairing {
            n: nodes,
            mates,
            duals,
        }
    }
}

impl<'a> Lists<'a> {
    // The state before the first stage.
    #[tactic(auto, unfolding(steps::specs::State::start))]
    pub fn fresh(
        g: &Graph,
        numbers: &'a mut [u16],
        allowed: &'a mut [bool],
        duals: &'a mut [i64],
    ) -> Lists<'a>
        requires room { 18 * g.now.nodes + 3 * (g.now.nodes * g.now.nodes) ≤ length numbers.old }
        requires edges { (length allowed.old ≡ edge_count g.now) × (length allowed.old ≤ 65535) }
        requires duals { length duals.old ≡ 2 * g.now.nodes }
        ensures said { state_of result at_start ≡ start g.now }
        ensures size { sized result ≡ size_of g.now }
    {
        let nodes = g.nodes();
        let n = nodes as usize;
        let (mates, rest) = numbers.split_at_mut(n);
        let (trees, labels) = rest.split_at_mut(8 * n + 2 * (n * n));
        Lists {
            forest: Forest::fresh(nodes, trees),
            labelling: Labelling::fresh(nodes, labels, allowed),
            pairing: Pairing::fresh(nodes, g.top_weight(), mates, duals),
        }
    }
}
