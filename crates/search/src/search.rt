// The state of a search by value: its lists and its room by reference, and what is next.
ghost use Rattle.std.specs.Prelude.{◌≡◌, ℕ, ◌+◌, ◌*◌, ◌<◌, length};
ghost use Rattle.std.specs.Result.{IfOk};
ghost use Rattle.matching.specs.Graph.{is_group};
ghost use Rattle.matching.specs.Certificate.{Certificate};
ghost use Rattle.steps.specs.State.{opening, searching, closing};
ghost use Rattle.steps.specs.Steps.{open_stage as open_stage_of, take_node as take_node_of, close_stage as close_stage_of, step as step_of};
ghost use Rattle.steps.specs.Adjust.{adjust_duals as adjust_duals_of};
ghost use Rattle.steps.specs.Plan.{is_ended as is_ended_of, certificate_of};
ghost use Rattle.steps.specs.Standing.{After};
ghost use Rattle.state.specs.Parts.{state_of, sized, size_of};
ghost use Rattle.search.specs.Searched.{phase_of, progress, searched, AnswersSearch, Ready, Numbered, Stands, phase_after};

use crate::adjusting::{adjust, close_groups};
use crate::scratch::Scratch;
use crate::taking::take_node;
use edges::graph::Graph;
use numbers::faults::Fault;
use stages::open::open_stage;
use state::lists::Lists;
use std::marker::Model;

// What the next step is.
#[derive(Clone, Copy, Debug, PartialEq, Eq)]
pub enum Phase {
    Opening,
    Searching,
    Closing,
    Ended,
}

#[derive(Drop)]
pub struct Search<'a, 'b> {
    lists: &'b mut Lists<'a>,
    scratch: &'b mut Scratch<'a>,
    // how many stages are closed
    stage: u16,
    phase: Phase,
}

impl<'a, 'b> Model for Search<'a, 'b> {
    ghost use Rattle.search.specs.Searched.{phase_of, progress, Searched};

    ghost Value = { Searched };

    ghost view = { λ s. record { lists = s.lists.now; scratch = s.scratch.now; at = progress s.stage (phase_of s.phase) } };
}

// What comes after a stage, by how many are closed.
fn phase_after(stage: u16, n: u16) -> Phase
    ensures { phase_of result ≡ phase_after stage n }
{
    if stage == n {
        Phase::Ended
    } else {
        Phase::Opening
    }
}

impl<'a, 'b> Search<'a, 'b> {
    // Before the first stage.
    pub fn new(lists: &'b mut Lists<'a>, scratch: &'b mut Scratch<'a>) -> Search<'a, 'b>
        ensures { result ≡ record { lists = lists.old; scratch = scratch.old; at = progress 0 opening } }
    {
        Search {
            lists,
            scratch,
            stage: 0,
            phase: Phase::Opening,
        }
    }

    pub fn is_ended(&self) -> bool
        ensures { result ≡ is_ended_of self.now.at.phase }
    {
        matches!(self.phase, Phase::Ended)
    }

    fn open(mut self, g: &Graph) -> Result<Search<'a, 'b>, Fault>
        requires ready { Ready g.now self }
        requires phase { self.at.phase ≡ opening }
        ensures said { AnswersSearch (open_stage_of g.now (searched self.entry)) result }
        ensures ready { IfOk result (Ready g.now) }
    {
        open_stage(g, self.lists)?;
        self.phase = Phase::Searching;
        Ok(self)
    }

    // The last node of the queue is taken, and its neighbours are visited. Where lists and room are both lent the search is taken apart: of a
    // struct that stays whole the borrow checker lends one field at a time, as in `open`.
    fn take(self, g: &Graph) -> Result<Search<'a, 'b>, Fault>
        requires ready { Ready g.now self }
        requires phase { self.at.phase ≡ searching }
        ensures said { AnswersSearch (take_node_of is_group g.now (searched self.entry)) result }
        ensures ready { IfOk result (Ready g.now) }
    {
        let Search {
            lists,
            scratch,
            stage,
            phase,
        } = self;
        let augmented = take_node(g, lists, scratch)?;
        Ok(Search {
            lists,
            scratch,
            stage,
            phase: if augmented { Phase::Closing } else { phase },
        })
    }

    // The duals are adjusted, and what that allows is followed.
    fn adjust(self, g: &Graph, flag: bool) -> Result<Search<'a, 'b>, Fault>
        requires ready { Ready g.now self }
        requires phase { self.at.phase ≡ searching }
        ensures said { AnswersSearch (adjust_duals_of g.now flag (searched self.entry)) result }
        ensures ready { IfOk result (Ready g.now) }
    {
        let Search {
            lists,
            scratch,
            stage,
            phase,
        } = self;
        let ended = adjust(g, lists, scratch, flag)?;
        Ok(Search {
            lists,
            scratch,
            stage,
            phase: if ended { Phase::Ended } else { phase },
        })
    }

    #[tactic(auto, unfolding(steps::specs::Steps::close_stage))]
    fn close(self, g: &Graph) -> Result<Search<'a, 'b>, Fault>
        requires ready { Ready g.now self }
        requires phase { self.at.phase ≡ closing }
        ensures said { AnswersSearch (close_stage_of g.now (searched self.entry)) result }
        ensures ready { IfOk result (Ready g.now) }
    {
        let Search {
            lists,
            scratch,
            stage,
            ..
        } = self;
        close_groups(g, lists, scratch)?;
        let n = g.nodes();
        let closed = stage + 1;
        Ok(Search {
            lists,
            scratch,
            stage: closed,
            phase: phase_after(closed, n),
        })
    }

    // The next step, by phase. After k completed steps from the fresh start it is step k + 1, and what it leaves stands.
    #[tactic(auto, unfolding(steps::specs::Steps::step, steps::specs::Steps::step_at, steps::specs::Steps::take_or_adjust))]
    pub fn step(self, g: &Graph, flag: bool) -> Result<Search<'a, 'b>, Fault>
        requires { Ready g.now self }
        ensures said { AnswersSearch (step_of is_group g.now flag (searched self.entry)) result }
        ensures ready { IfOk result (Ready g.now) }
        ensures stands { (k : ℕ) → Numbered g.now → After is_group g.now flag k (searched self.entry) → IfOk result (Stands g.now flag (k + 1)) }
    {
        match self.phase {
            Phase::Opening => self.open(g),
            Phase::Searching => {
                if self.lists.has_none_queued() {
                    self.adjust(g, flag)
                } else {
                    self.take(g)
                }
            }
            Phase::Closing => self.close(g),
            Phase::Ended => Ok(self),
        }
    }

    // The lists of the certificate are copied out.
    #[tactic(auto, unfolding(steps::specs::Plan::certificate_of))]
    pub fn hand_out(&self, mates: &mut [u16], duals: &mut [i64], parents: &mut [u16])
        requires mates { length mates.old ≡ self.now.lists.labels.size.nodes }
        requires duals { length duals.old ≡ 2 * self.now.lists.labels.size.nodes }
        requires parents { length parents.old ≡ 2 * self.now.lists.labels.size.nodes }
        ensures { certificate_of (searched self.now) ≡ record { mates = mates.new; duals = duals.new; parents = parents.new } }
    {
        self.lists.hand_out(mates, duals, parents);
    }
}
