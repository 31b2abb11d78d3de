// The search over the edges of a request, in lent lists, and what it comes to.
ghost use Rattle.std.specs.Prelude.{◌≡◌, ◌*◌, ◌+◌, ◌<◌, ◌≤◌, length};
ghost use Rattle.matching.specs.Graph.{edge_count};
ghost use Rattle.steps.specs.Plan.{Ending, run as run_of};
ghost use Rattle.steps.specs.Refusals.{Room};
ghost use Rattle.steps.specs.State.{start};
ghost use Rattle.state.specs.Fresh.{at_start};
ghost use Rattle.state.specs.Parts.{state_of, sized, size_of};
ghost use Rattle.plan.specs.Requests.{ran, planned, planned_by};
ghost use Rattle.plan.specs.Runs.{certified, outcome_of, Certifies, settled};

use crate::ends::lay_ends;
use crate::found::Found;
use crate::request::Request;
use edges::graph::Graph;
use edges::neighbours::neighbours;
use search::running::Stopped;
use search::scratch::Scratch;
use search::search::Search;
use state::lists::Lists;

// From the state before the first stage. The answer is the steps completed; where the search has ended, its certificate is found.
#[tactic(auto, unfolding(steps::specs::Plan::run))]
fn search_from<'a, 'b>(
    g: &Graph,
    request: &Request,
    lists: &'b mut Lists<'a>,
    scratch: &'b mut Scratch<'a>,
    found: &mut Found,
) -> Result<u32, Stopped>
    requires some { 0 < g.now.nodes }
    requires fresh { (state_of lists.old at_start ≡ start g.now) × (sized lists.old ≡ size_of g.now) }
    requires nodes { (scratch.old ≡ g.now.nodes) × (found.old.nodes ≡ g.now.nodes) }
    ensures said { Certifies (outcome_of (run_of g.now request.now.flag request.now.budget 0 (start g.now))) result found.new.certificate }
    ensures nodes { found.new.nodes ≡ found.old.nodes }
{
    let search = Search::new(lists, scratch);
    let (ended, steps) = search.run(g, request.flag, request.budget)?;
    found.take(&ended);
    Ok(steps)
}

// In lists that are lent.
fn search_graph<'x>(
    g: &Graph,
    request: &Request,
    numbers: &'x mut [u16],
    allowed: &'x mut [bool],
    duals: &'x mut [i64],
    found: &mut Found,
) -> Result<u32, Stopped>
    requires some { 0 < g.now.nodes }
    requires numbers { length numbers.old ≡ 36 * g.now.nodes + 3 * (g.now.nodes * g.now.nodes) }
    requires allowed { (length allowed.old ≡ edge_count g.now) × (length allowed.old ≤ 65535) }
    requires duals { length duals.old ≡ 2 * g.now.nodes }
    requires nodes { found.old.nodes ≡ g.now.nodes }
    ensures said { Certifies (outcome_of (run_of g.now request.now.flag request.now.budget 0 (start g.now))) result found.new.certificate }
    ensures nodes { found.new.nodes ≡ found.old.nodes }
{
    let n = g.nodes();
    let (spare, rest) = numbers.split_at_mut(18 * n as usize);
    let mut lists = Lists::fresh(g, rest, allowed, duals);
    let mut scratch = Scratch::new(n, spare);
    search_from(g, request, &mut lists, &mut scratch, found)
}

// The graph is made in the lent lists, and searched.
fn search_edges(
    request: &Request,
    numbers: &mut [u16],
    allowed: &mut [bool],
    duals: &mut [i64],
    found: &mut Found,
) -> Result<u32, Stopped>
    requires numbers { length numbers.old ≡ 4 * length request.now.first.now + 37 * request.now.n + 1 + 3 * (request.now.n * request.now.n) }
    requires allowed { length allowed.old ≡ length request.now.first.now }
    requires duals { length duals.old ≡ 2 * request.now.n }
    requires nodes { found.old.nodes ≡ request.now.n }
    ensures said { Certifies (outcome_of (ran request.now)) result found.new.certificate }
    ensures nodes { found.new.nodes ≡ found.old.nodes }
{
    let m = request.count();
    let (ends, rest) = numbers.split_at_mut(2 * m);
    let (far, rest) = rest.split_at_mut(2 * m);
    let (offsets, rest) = rest.split_at_mut(request.n as usize + 1);
    lay_ends(request.first, request.second, ends);
    neighbours(ends, request.n, offsets, far);
    let g = Graph::new(request.n, ends, request.weight, offsets, far);
    search_graph(&g, request, rest, allowed, duals, found)
}

// A certificate that was found passes, or it is a fault.
fn judged(request: &Request, found: &Found, steps: u32) -> Result<u32, Stopped>
    requires { found.now.nodes ≡ request.now.n }
    ensures { (room : Room) (e : Ending) → outcome_of e ≡ certified steps found.now.certificate → settled request.now.n room result found.now.certificate ≡ planned_by request.now room e }
{
    match found.judge(request) {
        Ok(()) => Ok(steps),
        Err(_) => Err(Stopped::Broken(steps)),
    }
}

// Ok where the search has ended and its certificate passes.
pub(crate) fn settle(
    request: &Request,
    numbers: &mut [u16],
    allowed: &mut [bool],
    duals: &mut [i64],
    found: &mut Found,
) -> Result<u32, Stopped>
    requires numbers { length numbers.old ≡ 4 * length request.now.first.now + 37 * request.now.n + 1 + 3 * (request.now.n * request.now.n) }
    requires allowed { length allowed.old ≡ length request.now.first.now }
    requires duals { length duals.old ≡ 2 * request.now.n }
    requires nodes { found.old.nodes ≡ request.now.n }
    ensures said { (room : Room) → settled request.now.n room result found.new.certificate ≡ planned request.now room }
    ensures nodes { found.new.nodes ≡ found.old.nodes }
{
    let steps = search_edges(request, numbers, allowed, duals, found)?;
    judged(request, found, steps)
}
