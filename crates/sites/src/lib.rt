// From a site file's bytes to the printed answer: reads the file, plans it, and prints the plan or the refusal into a lent buffer. Each
// function says besides whether the plan is done.
#![tactic(auto)]

ghost use Rattle.std.specs.Prelude.{◌≡◌, List, ℕ, ◌*◌, ◌≤◌, ℤ, length, take};
ghost use Rattle.records.specs.WholeView.{padded};
ghost use Rattle.printed.specs.Answer.{printed};
ghost use Rattle.printed.specs.Written.{Puts};
ghost use Rattle.sites.specs.Answered.{answered, done, is_done};
ghost use Rattle.plan.specs.View.{answer_of, plan_of};
ghost use Rattle.sites.specs.View.{Weighs, graph_in, plan_text, plan_done, site_text, site_done};

mod site;

use crate::site::Site;
use numbers::MISSING;
use plan::answers::Answer;
use plan::plan;
use printed::pair::Plan;
use printed::text::Text;
use records::site::Head;
use records::whole::read_site;

// What was printed: how many bytes, and whether the plan is done.
#[derive(Clone, Copy, Debug, PartialEq, Eq)]
pub struct Printed {
    pub size: usize,
    pub done: bool,
}

// The text of a plan's answer.
#[tactic(auto, unfolding(printed::specs::Answer::printed_answer))]
fn put_answer(text: &mut Text, site: Site, answer: Answer, mates: &[u16]) -> bool
    requires mated { length mates.now ≡ site.n }
    requires weighs { Weighs answer site.weight.now }
    ensures done { result ≡ is_done (answer_of answer) }
    ensures text { (duals : List ℤ) → (parents : List ℕ) → Puts (printed (graph_in site.entry) (plan_of answer mates.now duals parents)) text.old text.new }
{
    let done = matches!(answer, Answer::Done(_));
    match answer {
        Answer::Done(steps) => text.put_done(
            Plan {
                n: site.n,
                first: site.first,
                second: site.second,
                weight: site.weight,
                mates,
            },
            steps,
        ),
        Answer::Steps(_) => text.put_other(b"STEPS", 0),
        Answer::Fault(_) => text.put_other(b"FAULT", 0),
        Answer::Refused(cause) => text.put_refusal(cause),
    }
    done
}

// The text of a site's plan. The plan's lists are lent.
fn answer_lists(
    text: &mut Text,
    site: Site,
    mates: &mut [u16],
    duals: &mut [i64],
    parents: &mut [u16],
) -> bool
    requires { (length mates.old ≡ site.n) × (length duals.old ≡ 2 * site.n) × (length parents.old ≡ 2 * site.n) }
    ensures done { result ≡ site_done site.entry }
    ensures text { Puts (site_text site.entry) text.old text.new }
{
    let answer = plan(
        usize::from(site.n),
        site.first,
        site.second,
        site.weight,
        site.flag,
        site.budget,
        mates,
        duals,
        parents,
    );
    put_answer(text, site, answer, mates)
}

// The same in lists of its own.
fn answer_site(text: &mut Text, site: Site) -> bool
    ensures done { result ≡ site_done site.entry }
    ensures text { Puts (site_text site.entry) text.old text.new }
{
    let k = usize::from(site.n);
    let mut mates = [MISSING; 64];
    let mut duals = [0i64; 128];
    let mut parents = [MISSING; 128];
    answer_lists(
        text,
        site,
        &mut mates[..k],
        &mut duals[..2 * k],
        &mut parents[..2 * k],
    )
}

// The site of a file that reads well; its edges stand at the front of the lists.
fn site_of<'a>(h: Head, first: &'a [u16], second: &'a [u16], weight: &'a [i64]) -> Site<'a>
    requires { (h.edges ≤ length first.now) × (h.edges ≤ length second.now) × (h.edges ≤ length weight.now) }
    ensures done { site_done result ≡ plan_done h.nodes (take h.edges first.now) (take h.edges second.now) (take h.edges weight.now) h.flag h.budget }
    ensures text { site_text result ≡ plan_text h.nodes (take h.edges first.now) (take h.edges second.now) (take h.edges weight.now) h.flag h.budget }
{
    let m = usize::from(h.edges);
    Site {
        n: h.nodes,
        first: &first[..m],
        second: &second[..m],
        weight: &weight[..m],
        flag: h.flag,
        budget: h.budget,
    }
}

// The text of a site file's answer. The lists are for the file's edges.
#[tactic(auto, using(crate::proofs::ReadLaws::answers))]
fn answer_file(
    text: &mut Text,
    file: &[u8],
    first: &mut [u16],
    second: &mut [u16],
    weight: &mut [i64],
) -> bool
    requires { (length first.old ≡ 2048) × (length second.old ≡ 2048) × (length weight.old ≡ 2048) }
    ensures done { result ≡ done file.now }
    ensures text { Puts (answered file.now) text.old text.new }
{
    match read_site(file, first, second, weight) {
        Ok(h) => answer_site(text, site_of(h, first, second, weight)),
        Err(refused) => {
            text.put_complaint(refused.what, refused.place as u64);
            false
        }
    }
}

// Plans a site file: the printed answer stands at the front of `out`, cut where the buffer ends. Every other byte is 0.

pub fn print_site(file: &[u8], out: &mut [u8]) -> Printed
    ensures out_after { out.new ≡ padded 0 (take (length out.old) (answered file.now)) (length out.old) }
    ensures size { result.size ≡ length (take (length out.old) (answered file.now)) }
    ensures done { result.done ≡ done file.now }
{
    out.fill(0);
    let mut first = [0u16; 2048];
    let mut second = [0u16; 2048];
    let mut weight = [0i64; 2048];
    let mut text = Text {
        out: &mut *out,
        len: 0,
    };
    let done = answer_file(&mut text, file, &mut first, &mut second, &mut weight);
    Printed {
        size: text.len,
        done,
    }
}

// The same for callers that read the answer's name: how many bytes of `out` are the printed answer.
pub fn plan_site(file: &[u8], out: &mut [u8]) -> usize
    ensures out_after { out.new ≡ padded 0 (take (length out.old) (answered file.now)) (length out.old) }
    ensures value { result ≡ length (take (length out.old) (answered file.now)) }
{
    print_site(file, out).size
}
