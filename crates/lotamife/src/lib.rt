// The two calls behind the C interface, on lists and numbers alone; crate lotamife_c exports them. No function here has a requires:
// whatever is passed is answered.
#![tactic(auto)]

ghost use Rattle.std.specs.Prelude.{◌≡◌, length};
ghost use Rattle.certificate.specs.Lists.{room, certificate_of, check_lists};
ghost use Rattle.steps.specs.Check.{judgement_number, judgement_place};
ghost use Rattle.plan.specs.View.{plan_lists};
ghost use Rattle.lotamife.specs.View.{Planned};

// The plan call. The result is the answer's number, 0 to 8; its place and the steps completed are always written. Where it is 0, the check
// call answers 0 to what is left in the lists.
pub fn lotamife_plan(
    n: usize,
    first: &[u16],
    second: &[u16],
    weight: &[i64],
    max_cardinality: bool,
    budget: u32,
    mates: &mut [u16],
    duals: &mut [i64],
    parents: &mut [u16],
    place: &mut u32,
    steps: &mut u32,
) -> u32
    ensures said { Planned (plan_lists (room (length mates.old) (length duals.old) (length parents.old)) n first.now second.now weight.now max_cardinality budget) result place.new steps.new mates.new duals.new parents.new }
    ensures agreed { result ≡ 0 → judgement_number (check_lists n first.now second.now weight.now max_cardinality (certificate_of mates.new duals.new parents.new)) ≡ 0 }
{
    let answer = plan::plan(
        n,
        first,
        second,
        weight,
        max_cardinality,
        budget,
        mates,
        duals,
        parents,
    );
    *place = answer.place() as u32;
    *steps = answer.steps();
    answer.number() as u32
}

// The check call. The result is 0 for YES, 1 to 6 for a refusal, 11 to 17 for NO; its place is always written.
pub fn lotamife_check(
    n: usize,
    first: &[u16],
    second: &[u16],
    weight: &[i64],
    max_cardinality: bool,
    mates: &[u16],
    duals: &[i64],
    parents: &[u16],
    place: &mut u32,
) -> u32
    ensures { (result ≡ judgement_number (check_lists n first.now second.now weight.now max_cardinality (certificate_of mates.now duals.now parents.now))) × (place.new ≡ judgement_place (check_lists n first.now second.now weight.now max_cardinality (certificate_of mates.now duals.now parents.now))) }
{
    let verdict = certificate::check(
        n,
        first,
        second,
        weight,
        max_cardinality,
        mates,
        duals,
        parents,
    );
    *place = verdict.place() as u32;
    verdict.number() as u32
}
