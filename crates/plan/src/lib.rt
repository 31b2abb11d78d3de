// The plan call: the pairs of greatest weight, with a certificate, or why there are none.
#![tactic(auto)]

ghost use Rattle.std.specs.Prelude.{◌≡◌, ◌*◌, ◌+◌, ◌<◌, length};
ghost use Rattle.matching.specs.Tests.{YES};
ghost use Rattle.steps.specs.Check.{JUDGED};
ghost use Rattle.steps.specs.Plan.{DONE};
ghost use Rattle.certificate.specs.Lists.{room, certificate_of, check_lists};
ghost use Rattle.plan.specs.Lists.{Cleared};
ghost use Rattle.plan.specs.Requests.{planned};
ghost use Rattle.plan.specs.View.{answer_of, plan_of, plan_lists};

pub mod answers;
mod ends;
mod found;
mod request;
mod searching;

use crate::answers::Answer;
use crate::found::Found;
use crate::request::Request;
use crate::searching::settle;
use certificate::intake::refusal;
use clearing::{clear, clear_duals};

// The plan of edges that are not refused. All lists that it works in stand here, with room for 64 nodes and 2,048 edges: only DONE
// fills the lent ones. Fixed memory: nothing below the programs has a heap.
fn plan_edges(
    request: &Request,
    mates: &mut [u16],
    duals: &mut [i64],
    parents: &mut [u16],
) -> Answer
    requires { Cleared request.now.n mates.old duals.old parents.old }
    ensures { plan_of result mates.new duals.new parents.new ≡ planned request.now (room (length mates.old) (length duals.old) (length parents.old)) }
{
    let n = request.n as usize;
    let m = request.count();
    let mut numbers = [0u16; 23041];
    let mut allowed = [false; 2048];
    let mut amounts = [0i64; 256];
    let (own, rest) = numbers.split_at_mut(3 * n);
    let (own_duals, spare) = amounts.split_at_mut(2 * n);
    let mut found = Found::new(request.n, own, own_duals);
    let used = 4 * m + 37 * n + 1 + 3 * (n * n);
    let settled = settle(
        request,
        &mut rest[..used],
        &mut allowed[..m],
        &mut spare[..2 * n],
        &mut found,
    );
    match settled {
        Ok(steps) => {
            found.fill(mates, duals, parents);
            Answer::Done(steps)
        }
        Err(stopped) => Answer::from(stopped),
    }
}

// The plan call. The three lent lists are cleared over their whole length before anything is read. Where it is DONE, the check call
// answers YES to what it leaves in them.
pub fn plan(
    n: usize,
    first: &[u16],
    second: &[u16],
    weight: &[i64],
    max_cardinality: bool,
    budget: u32,
    mates: &mut [u16],
    duals: &mut [i64],
    parents: &mut [u16],
) -> Answer
    ensures said { plan_of result mates.new duals.new parents.new ≡ plan_lists (room (length mates.old) (length duals.old) (length parents.old)) n first.now second.now weight.now max_cardinality budget }
    ensures agreed { answer_of result ≡ DONE → check_lists n first.now second.now weight.now max_cardinality (certificate_of mates.new duals.new parents.new) ≡ JUDGED YES }
{
    clear(mates);
    clear_duals(duals);
    clear(parents);
    if let Err(cause) = refusal(
        n,
        first,
        second,
        weight,
        mates.len(),
        duals.len(),
        parents.len(),
    ) {
        return Answer::Refused(cause);
    }
    if first.len() == 0 {
        return Answer::Done(0);
    }
    let request = Request {
        n: n as u16,
        first,
        second,
        weight,
        flag: max_cardinality,
        budget,
    };
    plan_edges(&request, mates, duals, parents)
}
