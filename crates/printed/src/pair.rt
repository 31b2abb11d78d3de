// A plan whose pairs are printed, and one pair of it.
ghost use Rattle.std.specs.Prelude.{◌≡◌, ◌≤◌, nat_abs, length};
ghost use Rattle.numbers.specs.Near.{Near};

use numbers::Node;

// The nodes and the edges of a plan, and the mate of each node. A mate that is no end of an edge makes no pair. Three lists of edges
// beside each other, as the plan call takes them.
#[derive(Clone, Copy)]
pub struct Plan<'a> {
    pub n: u16,
    pub first: &'a [u16],
    pub second: &'a [u16],
    pub weight: &'a [i64],
    pub mates: &'a [u16],
    ghost few: { n ≤ 64 },
    ghost mated: { length mates.now ≡ n },
    ghost seconds: { length second.now ≡ length first.now },
    ghost weights: { length weight.now ≡ length first.now },
    ghost near: { Near 1000000000 weight.now },
}

#[derive(Clone, Copy)]
pub(crate) struct Pair {
    pub lower: Node,
    pub higher: Node,
    pub weight: i64,
    ghost light: { nat_abs weight ≤ 1000000000 },
}
