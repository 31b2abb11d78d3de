// The chain of each node: the groups that contain it, from the innermost to the outermost. Each chain is climbed once and kept as a row of
// a table: row v has n places, of which counts[v] are in use.
ghost use Rattle.std.specs.Prelude.{◌≡◌, ◌+◌, ◌*◌, ◌<◌, ◌≤◌, nat_abs, length, take, drop};
ghost use Rattle.laws.specs.Lists.{member, sum};
ghost use Rattle.matching.specs.Certificate.{meets, size as size_of};
ghost use Rattle.certificate.specs.Chains.{Climbing, Climbed, Table, chain, common_duals};
ghost use Rattle.certificate.specs.Lists.{Near, bare};

use numbers::{Group, MISSING, Node};

#[derive(Clone, Copy)]
pub(crate) struct Chains<'a> {
    pub(crate) nodes: u16,
    pub(crate) parents: &'a [u16],
    counts: &'a [u16],
    pool: &'a [u16],
    ghost table: { Table nodes counts.now pool.now parents.now },
}

// Climbs from v, writes the groups met to row v, and answers how many there are.
fn climb(n: u16, parents: &[u16], v: Node, pool: &mut [u16]) -> u16
    requires few { n ≤ 64 }
    requires climbing { Climbing n parents.now }
    requires node { v < n }
    requires room { n * n ≤ length pool.old }
    ensures { Climbed n parents.now v pool.old pool.new result }
{
    let row = v.number() as usize * n as usize;
    // Where the next parent is is what the last one says.
    let mut p = parents[v.number() as usize];
    let mut k: u16 = 0;
    while p != MISSING {
        pool[row + k as usize] = p;
        p = parents[p as usize];
        k += 1;
    }
    k
}

fn fill(n: u16, parents: &[u16], counts: &mut [u16], pool: &mut [u16])
    requires few { n ≤ 64 }
    requires climbing { Climbing n parents.now }
    requires counts { n ≤ length counts.old }
    requires room { n * n ≤ length pool.old }
    ensures { Table n counts.new pool.new parents.now }
{
    for v in 0..n {
        let k = climb(n, parents, Node::of(v), pool);
        counts[v as usize] = k;
    }
}

fn is_in(list: &[u16], x: u16) -> bool
    ensures { result ≡ member x list.now }
{
    // A chain is short: the slice's `contains`, which compares many entries at a time, takes longer.
    list.iter().any(|&y| y == x)
}

fn part(list: &[u16], from: usize, count: usize) -> &[u16]
    requires { from + count ≤ length list.now }
    ensures { result.now ≡ take count (drop from list.now) }
{
    &list[from..from + count]
}

impl<'a> Chains<'a> {
    // The table is made in the two lists, whatever they held.
    pub(crate) fn of(
        n: u16,
        parents: &'a [u16],
        counts: &'a mut [u16],
        pool: &'a mut [u16],
    ) -> Chains<'a>
        requires few { n ≤ 64 }
        requires climbing { Climbing n parents.now }
        requires counts { n ≤ length counts.old }
        requires room { n * n ≤ length pool.old }
        ensures nodes { result.nodes ≡ n }
        ensures parents { result.parents.now ≡ parents.now }
    {
        fill(n, parents, counts, pool);
        Chains {
            nodes: n,
            parents,
            counts,
            pool,
        }
    }

    #[tactic(auto, using(crate::proofs::RowLaws::rows))]
    fn row(&self, v: Node) -> &[u16]
        requires node { v < self.now.nodes }
        ensures { result.now ≡ chain self.now.parents.now self.now.nodes v }
    {
        let from = v.number() as usize * self.nodes as usize;
        let count = self.counts[v.number() as usize] as usize;
        part(self.pool, from, count)
    }

    // Group b contains node v.
    #[tactic(auto, using(crate::proofs::ChainLaws::meets_member))]
    pub(crate) fn contains(&self, b: Group, v: Node) -> bool
        requires node { v < self.now.nodes }
        ensures { result ≡ meets self.now.parents.now self.now.nodes v b }
    {
        is_in(self.row(v), b.number())
    }

    // How many nodes group b contains. A sum of ones, as in the definition: `filter` and `count` would want a law that ties the two.
    #[tactic(auto, using(crate::proofs::Passes::sums), unfolding(matching::specs::Certificate::size, matching::specs::Certificate::contains))]
    pub(crate) fn size_of(&self, b: Group) -> u16
        ensures { result ≡ size_of (bare self.now.nodes) self.now.parents.now b }
    {
        let mut size: u16 = 0;
        for v in 0..self.nodes {
            size += u16::from(self.contains(b, Node::of(v)));
        }
        size
    }

    // The duals of all groups that contain both a and b: the two chains are compared from the top, and what they share ends where they part.
    #[tactic(auto, using(crate::proofs::SharedLaws::shared))]
    pub(crate) fn common_duals(&self, duals: &[i64], a: Node, b: Node) -> i64
        requires near { Near self.now.nodes duals.now }
        requires first { a < self.now.nodes }
        requires second { b < self.now.nodes }
        ensures sum { result ≡ common_duals self.now.nodes duals.now self.now.parents.now a b }
        ensures near { nat_abs result ≤ 64 * 4503599627370496 }
    {
        let x = self.row(a);
        let y = self.row(b);
        // Two places from the top: what is summed so far is told by the two places, and two iterators that are zipped have none.
        let mut i = x.len();
        let mut j = y.len();
        let mut sum: i64 = 0;
        while i != 0 {
            if j == 0 {
                return sum;
            }
            let g = x[i - 1];
            if g != y[j - 1] {
                return sum;
            }
            sum += duals[g as usize];
            i -= 1;
            j -= 1;
        }
        sum
    }
}
