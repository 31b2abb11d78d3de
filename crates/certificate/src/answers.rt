// What the check answers, and what it refuses first. A definition in specs/ gives document 01's number and place of each case.
ghost use Rattle.std.specs.Prelude.{◌≡◌};
ghost use Rattle.matching.specs.Certificate.{condition_number};
ghost use Rattle.steps.specs.Refusals.{refusal_number, refusal_place};
ghost use Rattle.certificate.specs.View.{cause_of, condition_of, number_of, place_of, Required};

use numbers::Edge;

// Answers 1 to 6: End, Loop and Weight carry the edge.
#[derive(Clone, Copy, Debug, PartialEq, Eq)]
pub enum Cause {
    Nodes,
    Edges,
    Buffer,
    End(Edge),
    Loop(Edge),
    Weight(Edge),
}

// Conditions, with document 01's numbers.
#[derive(Clone, Copy, Debug, PartialEq, Eq)]
pub enum Condition {
    Mate = 11,
    Parent = 12,
    Dual = 13,
    Edge = 14,
    Tight = 15,
    Free = 16,
    Full = 17,
}

#[derive(Clone, Copy, Debug, PartialEq, Eq)]
pub enum Verdict {
    Yes,
    No(Condition),
    Refused(Cause),
}

// Numbers and places by a match: some cases hold an edge, so no cast gives them.
// By reference: what holds an edge is not copied where it is passed by value and used again.
impl Cause {
    // Document 01's number of a refusal.
    pub fn number(&self) -> u16
        ensures { result ≡ refusal_number (cause_of self.now) }
    {
        match *self {
            Cause::Nodes => 1,
            Cause::Edges => 2,
            Cause::End(_) => 3,
            Cause::Loop(_) => 4,
            Cause::Weight(_) => 5,
            Cause::Buffer => 6,
        }
    }

    // Its place: the edge, or 0.
    pub fn place(&self) -> u16
        ensures { result ≡ refusal_place (cause_of self.now) }
    {
        match *self {
            Cause::End(e) | Cause::Loop(e) | Cause::Weight(e) => e.number(),
            Cause::Nodes | Cause::Edges | Cause::Buffer => 0,
        }
    }
}

impl Condition {
    // Document 01's number of a condition.
    pub fn number(self) -> u16
        ensures { result ≡ condition_number (condition_of self) }
    {
        self as u16
    }
}

impl Verdict {
    // Document 01's number of a verdict: 0 for YES.
    pub fn number(&self) -> u16
        ensures { result ≡ number_of self.now }
    {
        match *self {
            Verdict::Yes => 0,
            Verdict::No(c) => c.number(),
            Verdict::Refused(c) => c.number(),
        }
    }

    // And its place.
    pub fn place(&self) -> u16
        ensures { result ≡ place_of self.now }
    {
        match *self {
            Verdict::Yes | Verdict::No(_) => 0,
            Verdict::Refused(c) => c.place(),
        }
    }
}

// Ok where a test holds, and else the error that says which. The search has one for its single fault, which needs no argument.
pub(crate) fn must<E: Copy>(test: bool, error: E) -> Result<(), E>
    ensures { Required test error result }
{
    if test { Ok(()) } else { Err(error) }
}
