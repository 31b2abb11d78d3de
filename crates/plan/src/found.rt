// The certificate that a search has found, in lists of the call's own until it is judged.
ghost use Rattle.std.specs.Prelude.{◌≡◌, ◌++◌, ◌*◌, ◌≤◌, length, drop};
ghost use Rattle.matching.specs.Tests.{verdict};
ghost use Rattle.steps.specs.Plan.{certificate_of};
ghost use Rattle.certificate.specs.View.{answer_of};
ghost use Rattle.state.specs.Parts.{sized};
ghost use Rattle.search.specs.Searched.{searched};
ghost use Rattle.plan.specs.Requests.{graph};

use crate::request::Request;
use certificate::answers::Condition;
use certificate::judge;
use search::search::Search;
use state::pools::copy;
use std::marker::Model;

// Apart from the request, which is lent for reading while this is written.
#[derive(Drop)]
pub(crate) struct Found<'a> {
    n: u16,
    mates: &'a mut [u16],
    duals: &'a mut [i64],
    parents: &'a mut [u16],
}

impl<'a> Model for Found<'a> {
    ghost use Rattle.std.specs.Prelude.{◌≡◌, ◌*◌, length};
    ghost use Rattle.certificate.specs.Lists.{certificate_of};
    ghost use Rattle.plan.specs.Runs.{Certified};

    ghost Value = { Certified };

    ghost view = { λ s. record { nodes = s.n; certificate = certificate_of s.mates.now s.duals.now s.parents.now } };

    ghost invariant = { λ s. (length s.mates.now ≡ s.n) × (length s.duals.now ≡ 2 * s.n) × (length s.parents.now ≡ 2 * s.n) };
}

impl<'a> Found<'a> {
    // Numbers has the mates and then the parents.
    pub(crate) fn new(n: u16, numbers: &'a mut [u16], duals: &'a mut [i64]) -> Found<'a>
        requires numbers { length numbers.old ≡ 3 * n }
        requires duals { length duals.old ≡ 2 * n }
        ensures { result.nodes ≡ n }
    {
        let (mates, parents) = numbers.split_at_mut(n as usize);
        Found {
            n,
            mates,
            duals,
            parents,
        }
    }

    // From a search that has ended.
    pub(crate) fn take(&mut self, search: &Search)
        requires { self.old.nodes ≡ search.now.lists.labels.size.nodes }
        ensures found { self.new.certificate ≡ certificate_of (searched search.now) }
        ensures nodes { self.new.nodes ≡ self.old.nodes }
    {
        search.hand_out(self.mates, self.duals, self.parents);
    }

    // Whether it passes.
    pub(crate) fn judge(&self, request: &Request) -> Result<(), Condition>
        requires { self.now.nodes ≡ request.now.n }
        ensures { answer_of result ≡ verdict (graph request.now) request.now.flag self.now.certificate }
    {
        judge(
            request.n,
            request.first,
            request.second,
            request.weight,
            request.flag,
            self.mates,
            self.duals,
            self.parents,
        )
    }

    // The first entries of the lent lists become the certificate.
    pub(crate) fn fill(&self, mates: &mut [u16], duals: &mut [i64], parents: &mut [u16])
        requires mates { self.now.nodes ≤ length mates.old }
        requires duals { 2 * self.now.nodes ≤ length duals.old }
        requires parents { 2 * self.now.nodes ≤ length parents.old }
        ensures mates { mates.new ≡ self.now.certificate.mates ++ drop self.now.nodes mates.old }
        ensures duals { duals.new ≡ self.now.certificate.duals ++ drop (2 * self.now.nodes) duals.old }
        ensures parents { parents.new ≡ self.now.certificate.parents ++ drop (2 * self.now.nodes) parents.old }
    {
        let n = self.n as usize;
        copy(self.mates, &mut mates[..n]);
        copy(self.duals, &mut duals[..2 * n]);
        copy(self.parents, &mut parents[..2 * n]);
    }
}
