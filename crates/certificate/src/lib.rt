// The certificate check: YES exactly where document 01's seven conditions hold, NO with the first that fails, or a refusal before that.
#![tactic(auto)]

ghost use Rattle.std.specs.Prelude.{◌≡◌, [], ◌∷◌, ◌*◌, length};
ghost use Rattle.matching.specs.Certificate.{EDGE, TIGHT, FREE, FULL};
ghost use Rattle.matching.specs.Tests.{verdict, verdict_of};
ghost use Rattle.certificate.specs.Chains.{Climbing};
ghost use Rattle.certificate.specs.Lists.{Known, Weighed, Near, lent, certificate_of, check_lists};
ghost use Rattle.certificate.specs.Trial.{graph};
ghost use Rattle.certificate.specs.View.{answer_of, judgement_of};

pub mod answers;
mod chains;
mod edges;
mod groups;
pub mod intake;
pub mod nodes;
mod slacks;
mod trial;

use crate::answers::{Condition, Verdict, must};
use crate::chains::Chains;
use crate::edges::Edges;
use crate::intake::refusal;
use crate::nodes::{duals_pass, free_pass, parents_pass};
use crate::trial::Trial;

// EDGE to FULL, where MATE, PARENT and DUAL hold.
#[tactic(auto, using(crate::proofs::JudgeLaws::sums))]
fn judge_sums(
    edges: Edges,
    flag: bool,
    mates: &[u16],
    duals: &[i64],
    parents: &[u16],
) -> Result<(), Condition>
    requires mates { length mates.now ≡ edges.nodes }
    requires near { Near edges.nodes duals.now }
    requires climbing { Climbing edges.nodes parents.now }
    ensures { answer_of result ≡ verdict_of (graph edges.entry) flag (certificate_of mates.now duals.now parents.now) (EDGE ∷ TIGHT ∷ FREE ∷ FULL ∷ []) }
{
    let mut counts = [0u16; 64];
    let mut pool = [0u16; 4096];
    let chains = Chains::of(edges.nodes, parents, &mut counts, &mut pool);
    let trial = Trial {
        edges,
        chains,
        mates,
        duals,
    };
    trial.slacks_pass(flag)?;
    must(free_pass(edges.nodes, flag, mates, duals), Condition::Free)?;
    must(trial.full_pass(), Condition::Full)
}

// The verdict on n mates, 2n duals and 2n parents, for edges that are not refused.
#[tactic(auto, using(crate::proofs::JudgeLaws::judging))]
pub fn judge(
    n: u16,
    first: &[u16],
    second: &[u16],
    weight: &[i64],
    flag: bool,
    mates: &[u16],
    duals: &[i64],
    parents: &[u16],
) -> Result<(), Condition>
    requires known { Known n first.now second.now }
    requires weighed { Weighed first.now weight.now }
    requires mates { length mates.now ≡ n }
    requires duals { length duals.now ≡ 2 * n }
    requires parents { length parents.now ≡ 2 * n }
    ensures { answer_of result ≡ verdict (lent n first.now second.now weight.now) flag (certificate_of mates.now duals.now parents.now) }
{
    let edges = Edges {
        nodes: n,
        first,
        second,
        weight,
    };
    must(edges.mates_pass(mates), Condition::Mate)?;
    must(parents_pass(n, parents), Condition::Parent)?;
    must(duals_pass(n, flag, duals), Condition::Dual)?;
    judge_sums(edges, flag, mates, duals, parents)
}

// The check call. It reads its lists only.
pub fn check(
    n: usize,
    first: &[u16],
    second: &[u16],
    weight: &[i64],
    max_cardinality: bool,
    mates: &[u16],
    duals: &[i64],
    parents: &[u16],
) -> Verdict
    ensures { judgement_of result ≡ check_lists n first.now second.now weight.now max_cardinality (certificate_of mates.now duals.now parents.now) }
{
    if let Err(cause) = refusal(
        n,
        first,
        second,
        weight,
        mates.len(),
        duals.len(),
        parents.len(),
    ) {
        return Verdict::Refused(cause);
    }
    let k = 2 * n;
    let m = &mates[..n];
    let d = &duals[..k];
    let p = &parents[..k];
    match judge(n as u16, first, second, weight, max_cardinality, m, d, p) {
        Ok(()) => Verdict::Yes,
        Err(condition) => Verdict::No(condition),
    }
}
