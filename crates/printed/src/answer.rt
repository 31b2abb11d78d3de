// Names and lines of the printed answer.
ghost use Rattle.std.specs.Prelude.{◌≡◌, [], ◌∷◌, ◌^◌, ◌<◌, nat_abs};
ghost use Rattle.steps.specs.Refusals.{refusal_place};
ghost use Rattle.certificate.specs.View.{cause_of};
ghost use Rattle.records.specs.View.{complaint_of};
ghost use Rattle.printed.specs.Text.{decimal, signed_decimal, line};
ghost use Rattle.printed.specs.Answer.{name_done, complaint_name, refusal_name, printed_complaint, printed_other, printed_done};
ghost use Rattle.printed.specs.Found.{pairs_in};
ghost use Rattle.printed.specs.Written.{Puts};

use crate::pair::Plan;
use crate::text::Text;
use certificate::answers::Cause;
use records::complaint::Complaint;

// The name of a refusal. By a match: document 01 has names as fixed byte strings, and a derived Debug would follow the code's spelling.
fn name(c: Complaint) -> &'static [u8]
    ensures { result.now ≡ complaint_name (complaint_of c) }
{
    match c {
        Complaint::Nodes => b"NODES",
        Complaint::Edges => b"EDGES",
        Complaint::Buffer => b"BUFFER",
        Complaint::Kind => b"KIND",
        Complaint::Cut => b"CUT",
        Complaint::Order => b"ORDER",
        Complaint::Time => b"TIME",
        Complaint::Long => b"LONG",
    }
}

impl<'a> Text<'a> {
    // A line of name and place.
    #[tactic(auto, using(crate::proofs::Lines::lines))]
    pub fn put_other(&mut self, name: &[u8], place: u64)
        ensures { Puts (printed_other name.now place) self.old self.new }
    {
        self.put(name);
        self.put(b" ");
        self.put_number(place);
        self.put(b"\n");
    }

    // A refused file's line.
    pub fn put_complaint(&mut self, c: Complaint, place: u64)
        ensures { Puts (printed_complaint (complaint_of c) place) self.old self.new }
    {
        self.put_other(name(c), place);
    }

    // The line of a plan that is refused.
    pub fn put_refusal(&mut self, c: Cause)
        ensures { Puts (printed_other (refusal_name (cause_of c)) (refusal_place (cause_of c))) self.old self.new }
    {
        match c {
            Cause::Nodes => self.put_other(b"NODES", 0),
            Cause::Edges => self.put_other(b"EDGES", 0),
            Cause::Buffer => self.put_other(b"BUFFER", 0),
            Cause::End(e) => self.put_other(b"END", u64::from(e.number())),
            Cause::Loop(e) => self.put_other(b"LOOP", u64::from(e.number())),
            Cause::Weight(e) => self.put_other(b"WEIGHT", u64::from(e.number())),
        }
    }

    // The first line of a plan that is done: pair count, total weight, steps.
    #[tactic(auto, using(crate::proofs::Lines::lines))]
    fn put_head(&mut self, count: u16, total: i64, steps: u32)
        requires { nat_abs total < 2 ^ 62 }
        ensures { Puts (line name_done (decimal count ∷ signed_decimal total ∷ decimal steps ∷ [])) self.old self.new }
    {
        self.put(b"DONE ");
        self.put_number(count);
        self.put(b" ");
        self.put_number(total);
        self.put(b" ");
        self.put_number(steps);
        self.put(b"\n");
    }

    // A plan that is done: its first line, and then each pair's.
    #[tactic(auto, using(crate::proofs::Lines::lines))]
    pub fn put_done(&mut self, plan: Plan, steps: u32)
        ensures { Puts (printed_done (pairs_in plan.entry) steps) self.old self.new }
    {
        self.put_head(plan.count(), plan.weigh(), steps);
        self.put_pairs(plan);
    }
}
