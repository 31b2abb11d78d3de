// The test that each mate names back.
ghost use Rattle.std.specs.Prelude.{◌≡◌};
ghost use Rattle.matching.specs.Certificate.{mate_of as mate_of_list};
ghost use Rattle.matching.specs.Tests.{mate_test, mates_pass as mates_pass_of};

use edges::graph::Graph;
use numbers::{End, MISSING, Node};
use state::lists::Lists;

// The mate of node v, missing where there is no such node.
#[tactic(auto, using(crate::proofs::MateLaws::told))]
fn mate_of(lists: &Lists, v: Node) -> End
    ensures { result ≡ mate_of_list lists.now.pairing.lists.mates v }
{
    lists.mate(v).unwrap_or(End::of(MISSING))
}

// The mate of node v is missing, or an end whose other end is v and whose node has that other end as mate. A bool and no Result: it is a
// test, as in the definition.
#[tactic(auto, using(crate::proofs::MateLaws::tests))]
fn mate_fits(g: &Graph, lists: &Lists, v: Node) -> bool
    ensures { result ≡ mate_test g.now lists.now.pairing.lists.mates v }
{
    let m = mate_of(lists, v);
    if m.is_missing() {
        return true;
    }
    let Ok(b) = g.endpoint(m) else {
        return false;
    };
    let Ok(a) = g.endpoint(m.beside()) else {
        return false;
    };
    if a != v {
        return false;
    }
    mate_of(lists, b) == m.beside()
}

// The mate of each node fits.
pub(crate) fn mates_pass(g: &Graph, lists: &Lists) -> bool
    ensures { result ≡ mates_pass_of g.now lists.now.pairing.lists.mates }
{
    (0..g.nodes()).all(|v| mate_fits(g, lists, Node::of(v)))
}
