// What the plan call answers. A definition in specs/ gives document 01's number, place and steps of each case.
ghost use Rattle.std.specs.Prelude.{◌≡◌};
ghost use Rattle.plan.specs.Runs.{stopped_answer};
ghost use Rattle.plan.specs.View.{number_of, place_of, steps_of};

use certificate::answers::Cause;
use search::running::Stopped;

// Done, Steps and Fault carry the steps completed.
#[derive(Clone, Copy, Debug, PartialEq, Eq)]
pub enum Answer {
    Done(u32),
    Steps(u32),
    Fault(u32),
    Refused(Cause),
}

// Of a run that has stopped.
impl From<Stopped> for Answer {
    ghost from_gives = { λ stopped answer. answer ≡ stopped_answer stopped };

    fn from(stopped: Stopped) -> Answer {
        match stopped {
            Stopped::Spent(steps) => Answer::Steps(steps),
            Stopped::Broken(steps) => Answer::Fault(steps),
        }
    }
}

// Number, place and steps by a match: the cases hold values, so no cast gives them.
// By reference: what holds an edge is not copied where it is passed by value and used again.
impl Answer {
    // Document 01's number of an answer.
    pub fn number(&self) -> u16
        ensures { result ≡ number_of self.now }
    {
        match *self {
            Answer::Done(_) => 0,
            Answer::Refused(cause) => cause.number(),
            Answer::Steps(_) => 7,
            Answer::Fault(_) => 8,
        }
    }

    // Its place: the edge of a refusal, or 0.
    pub fn place(&self) -> u16
        ensures { result ≡ place_of self.now }
    {
        match *self {
            Answer::Refused(cause) => cause.place(),
            Answer::Done(_) | Answer::Steps(_) | Answer::Fault(_) => 0,
        }
    }

    // The steps completed: none where the call is refused.
    pub fn steps(&self) -> u32
        ensures { result ≡ steps_of self.now }
    {
        match *self {
            Answer::Done(steps) | Answer::Steps(steps) | Answer::Fault(steps) => steps,
            Answer::Refused(_) => 0,
        }
    }
}
